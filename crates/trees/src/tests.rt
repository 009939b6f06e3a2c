// Examples of hosts and of climbing.
use crate::climb::{Assembly, ClimbRefusal, depth, is_at_or_above, meet};
use crate::host::{FaultKind, Host, HostFault};
use crate::indented::IndentedHost;
use crate::rule::{RuleHost, Shape};
use std::test::Fail;

const SMALL: [u16; 6] = [0, 1, 2, 2, 1, 2];

fn fault(kind: FaultKind, place: usize) -> Result<u16, HostFault> {
    Err(HostFault { kind, place })
}

#[test]
fn a_small_list(rt: HostRuntime) {
    let host = IndentedHost::new(&SMALL);
    assert_eq!(rt; host.verdict(), Ok(6));
    assert_eq!(rt; host.parent(0), None);
    assert_eq!(rt; host.parent(1), Some(0));
    assert_eq!(rt; host.parent(2), Some(1));
    assert_eq!(rt; host.parent(3), Some(1));
    assert_eq!(rt; host.parent(4), Some(0));
    assert_eq!(rt; host.parent(5), Some(4));
    assert_eq!(rt; host.parent(6), None);
}

#[test]
fn a_binary_tree(rt: HostRuntime) {
    let host = RuleHost {
        shape: Shape::Binary,
        count: 5,
    };
    assert_eq!(rt; host.parent(1), Some(0));
    assert_eq!(rt; host.parent(2), Some(0));
    assert_eq!(rt; host.parent(3), Some(1));
    assert_eq!(rt; host.parent(4), Some(1));
    assert_eq!(rt; host.parent(5), None);
}

#[test]
fn faults_at_their_places(rt: HostRuntime) {
    assert_eq!(rt;
        IndentedHost::new(&[]).verdict(),
        fault(FaultKind::Empty, 0)
    );
    assert_eq!(rt;
        IndentedHost::new(&[1, 2]).verdict(),
        fault(FaultKind::FirstLevel, 0)
    );
    assert_eq!(rt;
        IndentedHost::new(&[0, 1, 0]).verdict(),
        fault(FaultKind::Level, 2)
    );
    assert_eq!(rt;
        IndentedHost::new(&[0, 65_535]).verdict(),
        fault(FaultKind::Level, 1)
    );
    assert_eq!(rt;
        IndentedHost::new(&[0, 1, 3, 0]).verdict(),
        fault(FaultKind::Level, 2)
    );
    assert_eq!(rt; IndentedHost::new(&[0, 1, 3, 0]).parent(1), None);
}

#[test]
fn kinds_have_numbers(rt: HostRuntime) -> Result<(), Fail> {
    assert_eq!(rt; FaultKind::Empty.number(), 1);
    assert_eq!(rt; FaultKind::TooMany.number(), 2);
    assert_eq!(rt; FaultKind::FirstLevel.number(), 7);
    assert_eq!(rt; FaultKind::Level.number(), 8);
    assert_eq!(rt; FaultKind::Other(99).number(), 99);
    let fault = HostFault {
        kind: FaultKind::Other(99),
        place: 32_767,
    };
    let printed = format!(in rt.alloc(); "{fault}")?;
    assert_eq!(rt; printed.as_str(), "kind 99 place 32767");
    Ok(())
}

#[test]
fn shapes_have_names(rt: HostRuntime) -> Result<(), Fail> {
    let (chain, star, binary) = (Shape::Chain, Shape::Star, Shape::Binary);
    let printed = format!(in rt.alloc(); "{chain} {star} {binary}")?;
    assert_eq!(rt; printed.as_str(), "chain star binary");
    Ok(())
}

#[test]
fn answers_of_climbing_have_words(rt: HostRuntime) -> Result<(), Fail> {
    let assembly = Assembly { node: 1, depth: 2 };
    let missing = ClimbRefusal::NoSuchNode(6);
    let none = ClimbRefusal::NoTree(FaultKind::Level.at(3));
    let printed = format!(in rt.alloc(); "{assembly}, {missing}, {none}")?;
    assert_eq!(rt;
        printed.as_str(),
        "1 depth 2, no such node 6, fault kind 8 place 3"
    );
    Ok(())
}

#[test]
fn the_longest_list(rt: HostRuntime) -> Result<(), Fail> {
    let mut levels = vec![in rt.alloc(); 1u16; 32_768]?;
    assert!(rt; levels.len() == 32_768);
    levels[0] = 0;
    assert_eq!(rt;
        IndentedHost::new(levels.as_slice()).verdict(),
        fault(FaultKind::TooMany, 32_767)
    );
    let host = IndentedHost::new(&levels.as_slice()[0..32_767]);
    assert_eq!(rt; host.verdict(), Ok(32_767));
    assert_eq!(rt; host.parent(32_766), Some(0));
    Ok(())
}

#[test]
fn climbs(rt: HostRuntime) {
    let host = IndentedHost::new(&SMALL);
    assert_eq!(rt; depth(&host, 5), Ok(2));
    assert_eq!(rt; is_at_or_above(&host, 1, 3), Ok(true));
    assert_eq!(rt; is_at_or_above(&host, 1, 5), Ok(false));
    assert_eq!(rt; is_at_or_above(&host, 3, 1), Ok(false));
    assert_eq!(rt; meet(&host, 2, &[3]), Ok(Assembly { node: 1, depth: 1 }));
    assert_eq!(rt; meet(&host, 3, &[2, 5]), Ok(Assembly { node: 0, depth: 0 }));
    assert_eq!(rt; meet(&host, 3, &[6, 7]), Err(ClimbRefusal::NoSuchNode(6)));
}
