// One job on two places, each refusal that is the rack's own, and tickets that are handed back.
use crate::rack::Rack;
use crate::refusal::Refused;
use crate::ticket::{AnyTicket, OpenedTicket, StartedTicket};
use formats::answers::{Related, Relation};

// Path 01 at depth 0, branch 1, path 11 at depth 2.
const DEEP: [u8; 14] = [7, 0, 3, 2, 0, 3, 0, 5, 0, 0, 0, 2, 0, 0x78];

// Path 01 at depth 0.
const TOP: [u8; 8] = [7, 0, 1, 2, 0, 0, 0, 0x40];

// Path 11 at depth 0: not of one tree with the others.
const STRANGE: [u8; 8] = [7, 0, 1, 2, 0, 0, 0, 0xc0];

// As TOP, of tree number 8.
const OTHER: [u8; 8] = [8, 0, 1, 2, 0, 0, 0, 0x40];

// What a refusal to start says, and whether the ticket that it hands back fits its rack.
fn handed_back(rack: &mut Rack, refused: Refused<OpenedTicket>) -> (u8, bool) {
    let Refused { why, ticket } = refused;
    (why.number(), rack.abandon(AnyTicket::Opened(ticket)))
}

// Opens a place of one rack and starts it on another: the number of the refusal, or 0, and whether the ticket then in hand fits its rack.
fn carried(from: &mut Rack, to: &mut Rack, tag: &[u8]) -> (u8, bool) {
    match from.open(1) {
        Ok(opened) => match to.start(opened, tag) {
            Ok(started) => (0, to.abandon(AnyTicket::Started(started))),
            Err(refused) => handed_back(from, refused),
        },
        Err(why) => (why.number(), false),
    }
}

// The same on one rack, which cannot be lent twice.
fn tried(rack: &mut Rack, place: usize, tag: &[u8]) -> (u8, bool) {
    match rack.open(place) {
        Ok(opened) => match rack.start(opened, tag) {
            Ok(started) => (0, rack.abandon(AnyTicket::Started(started))),
            Err(refused) => handed_back(rack, refused),
        },
        Err(why) => (why.number(), false),
    }
}

// A place that is opened and started.
fn begun(rack: &mut Rack, place: usize, tag: &[u8]) -> Option<StartedTicket> {
    let opened = rack.open(place).ok()?;
    match rack.start(opened, tag) {
        Ok(started) => Some(started),
        Err(refused) => {
            handed_back(rack, refused);
            None
        }
    }
}

// Closes: the length that is written, or the number of the refusal and whether the ticket that is handed back fits.
fn closed(rack: &mut Rack, ticket: StartedTicket, out: &mut [u8]) -> (usize, u8, bool) {
    match rack.close(ticket, out) {
        Ok(len) => (len, 0, false),
        Err(refused) => {
            let Refused { why, ticket } = refused;
            (0, why.number(), rack.abandon(AnyTicket::Started(ticket)))
        }
    }
}

// One more tag, and then the end: the number of a refusal to add, or 0, and what closing gives.
fn finished(
    rack: &mut Rack,
    ticket: Option<StartedTicket>,
    tag: &[u8],
    out: &mut [u8],
) -> (u8, (usize, u8, bool)) {
    match ticket {
        Some(started) => {
            let added = match rack.add(&started, tag) {
                Ok(()) => 0,
                Err(why) => why.number(),
            };
            (added, closed(rack, started, out))
        }
        None => (100, (0, 0, false)),
    }
}

// How two places compare, or the number of the refusal.
fn compared(rack: &Rack, first: usize, second: usize) -> Result<Related, u8> {
    rack.compare(first, second).map_err(|why| why.number())
}

#[test]
fn works_on_two_places(rt: HostRuntime) {
    let mut rack = Rack::new(1, 7);
    let mut out = [9; 20];
    let mut room = [9; 20];
    let deep = begun(&mut rack, 3, &DEEP);
    let top = begun(&mut rack, 15, &TOP);
    let found = compared(&rack, 3, 15);
    let first = finished(&mut rack, deep, &TOP, &mut out);
    let second = finished(&mut rack, top, &DEEP, &mut room);
    assert_eq!(rt;
        found,
        Ok(Related {
            relation: Relation::SecondAbove,
            deeper: -2,
            steps: 2,
        })
    );
    assert_eq!(rt; first, (0, (8, 0, false)));
    assert_eq!(rt; second, (0, (8, 0, false)));
    assert_eq!(rt; out[7], 0x40);
    assert_eq!(rt; out[8], 9);
    assert_eq!(rt; compared(&rack, 3, 15), Err(12));
}

#[test]
fn refuses_each_once(rt: HostRuntime) {
    let mut rack = Rack::new(1, 7);
    let mut other = Rack::new(2, 7);
    assert_eq!(rt; tried(&mut rack, 16, &TOP), (9, false));
    assert_eq!(rt; compared(&rack, 0, 16), Err(9));
    assert_eq!(rt; compared(&rack, 0, 0), Err(12));
    assert_eq!(rt; carried(&mut rack, &mut other, &TOP), (11, true));
    assert_eq!(rt; tried(&mut rack, 0, &[7, 0]), (13, true));
    assert_eq!(rt; tried(&mut rack, 0, &OTHER), (20, true));
    assert_eq!(rt; tried(&mut rack, 0, &TOP), (0, true));
    let started = begun(&mut rack, 5, &TOP);
    let again = tried(&mut rack, 5, &TOP);
    let ended = finished(&mut rack, started, &STRANGE, &mut [0; 7]);
    assert_eq!(rt; again, (10, false));
    assert_eq!(rt; ended, (21, (0, 23, true)));
}
