// The press and look-up on examples.
use crate::look::{LookUpRefusal, look_up};
use crate::press::{PressRefusal, press};
use codes::bisection::Bisection;
use codes::gilbert_moore::GilbertMoore;
use trees::host::{FaultKind, HostFault};
use trees::indented::IndentedHost;

const SMALL: [u16; 6] = [0, 1, 2, 2, 1, 2];

const TAG_5: [u8; 14] = [
    0x07, 0x00, 0x03, 0x02, 0x00, 0x03, 0x00, 0x05, 0x00, 0x00, 0x00, 0x02, 0x00, 0x78,
];

// What stands in an output before.
const OLD: u8 = 0xAA;

fn pressed(
    levels: &[u16],
    number: u16,
    work: &mut [u16],
    out: &mut [u8],
) -> Result<usize, PressRefusal> {
    press(&IndentedHost::new(levels), &GilbertMoore, number, work, out)
}

fn found(sheet: &[u8], v: u16) -> Result<usize, LookUpRefusal> {
    Ok(look_up(sheet, v)?.len())
}

fn is_tag_5(sheet: &[u8]) -> bool {
    match look_up(sheet, 5) {
        Ok(tag) => tag == TAG_5.as_slice(),
        Err(_) => false,
    }
}

#[test]
fn the_small_tree(rt: HostRuntime) {
    let mut out = [OLD; 99];
    assert_eq!(rt; pressed(&SMALL, 7, &mut [0; 72], &mut out), Ok(98));
    assert_eq!(rt; out[98], OLD);
    assert!(rt; is_tag_5(&out));
}

#[test]
fn exact_memory(rt: HostRuntime) {
    assert_eq!(rt; pressed(&SMALL, 7, &mut [0; 72], &mut [OLD; 98]), Ok(98));
    assert_eq!(rt;
        press(
            &IndentedHost::new(&SMALL),
            &Bisection,
            7,
            &mut [0; 72],
            &mut [OLD; 98],
        ),
        Ok(98)
    );
    assert_eq!(rt; pressed(&[0], 65535, &mut [0; 12], &mut [OLD; 20]), Ok(20));
}

#[test]
fn press_refusals(rt: HostRuntime) {
    let fault = HostFault {
        kind: FaultKind::FirstLevel,
        place: 0,
    };
    assert_eq!(rt;
        pressed(&[1], 0, &mut [], &mut []),
        Err(PressRefusal::NumberZero)
    );
    assert_eq!(rt;
        pressed(&[1], 7, &mut [], &mut []),
        Err(PressRefusal::NoTree(fault))
    );
    assert_eq!(rt;
        pressed(&SMALL, 7, &mut [0; 71], &mut []),
        Err(PressRefusal::WorkTooShort)
    );
    assert_eq!(rt;
        pressed(&SMALL, 7, &mut [0; 72], &mut [OLD; 97]),
        Err(PressRefusal::OutputTooShort)
    );
    assert_eq!(rt; PressRefusal::NoTree(fault).number(), 2);
}

#[test]
fn look_up_refusals(rt: HostRuntime) {
    // One node, with a tag of one byte.
    assert_eq!(rt; found(&[7, 0, 1, 0, 12, 0, 0, 0, 13, 0, 0, 0, 1], 0), Ok(1));
    assert_eq!(rt; found(&[7, 0, 1], 0), Err(LookUpRefusal::SheetTooShort));
    assert_eq!(rt;
        found(&[7, 0, 1, 0, 12, 0, 0, 0, 12, 0, 0], 0),
        Err(LookUpRefusal::SheetTooShort)
    );
    assert_eq!(rt;
        found(&[7, 0, 1, 0, 12, 0, 0, 0, 12, 0, 0, 0], 1),
        Err(LookUpRefusal::NoSuchNode)
    );
    assert_eq!(rt;
        found(&[7, 0, 1, 0, 12, 0, 0, 0, 13, 0, 0, 0], 0),
        Err(LookUpRefusal::BadOffsets)
    );
    assert_eq!(rt;
        found(&[7, 0, 1, 0, 11, 0, 0, 0, 12, 0, 0, 0], 0),
        Err(LookUpRefusal::BadOffsets)
    );
    assert_eq!(rt;
        found(&[7, 0, 1, 0, 13, 0, 0, 0, 12, 0, 0, 0, 0], 0),
        Err(LookUpRefusal::BadOffsets)
    );
}
