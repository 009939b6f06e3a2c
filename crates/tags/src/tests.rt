// Runs on examples: the marked tag, each refusal, the limits, and two tags of one tree.
use crate::cut::cut;
use crate::field::Field;
use crate::limits::MOST_TAG_BYTES;
use crate::queries::{cover, difference, relate};
use crate::tag::Tag;
use formats::answers::{Difference, Part, Related, Relation, Side};
use formats::fault::PairRefusal;
use std::test::Fail;

const EXAMPLE: [u8; 14] = [7, 0, 3, 2, 0, 3, 0, 5, 0, 0, 0, 2, 0, 0x78];

const OTHER: [u8; 8] = [7, 0, 1, 2, 0, 5, 0, 0x80];

// The number of the fault, or 0.
fn fault(bytes: &[u8]) -> u8 {
    Tag::read(bytes).err().map_or(0, |fault| fault.number())
}

// The number of the refusal, or 0; 100 more where it is told of the second.
fn refusal(first: &[u8], second: &[u8]) -> u8 {
    match difference(first, second) {
        Ok(_) => 0,
        Err(
            PairRefusal::OneTag {
                side: Side::Second,
                fault,
            },
        ) => 100 + fault.number() % 100,
        Err(e) => e.number(),
    }
}

fn put_two(out: &mut [u8], at: usize, v: u16) {
    if at < 1000 && at + 2 <= out.len() {
        out[at..at + 2].copy_from_slice(&v.to_le_bytes());
    }
}

// A tag of `k` fields of `step` bits, the last of them up to `last`.
fn long_tag(out: &mut [u8], k: u8, step: u8, last: u16) {
    put_two(out, 0, 7);
    put_two(out, 2, u16::from(k));
    for i in 0..k {
        put_two(
            out,
            3 + 2 * i as usize,
            (u16::from(i) + 1) * u16::from(step),
        );
    }
    put_two(out, 1 + 2 * k as usize, last);
    for j in 0..k / 2 + 1 {
        put_two(out, 3 + 2 * k as usize + 2 * j as usize, u16::from(j));
    }
}

#[test]
fn reads_the_example(rt: HostRuntime) -> Result<(), Fail> {
    let tag = Tag::read(&EXAMPLE)?;
    assert_eq!(rt; tag.tree_number(), 7);
    assert_eq!(rt; tag.count(), 3);
    assert_eq!(rt; tag.end(2), Some(5));
    assert_eq!(rt; tag.end(3), None);
    assert_eq!(rt; tag.depth(1), Some(2));
    assert_eq!(rt; tag.last_depth(), 2);
    assert!(rt; tag.field(3).is_none());
    match tag.field(2) {
        Some(Field::Path { word, depth }) => {
            assert_eq!(rt; word.first_bit, 3);
            assert_eq!(rt; word.len, 2);
            assert_eq!(rt; depth, 2);
            assert_eq!(rt; word.bytes.len(), 1);
            Ok(())
        }
        Some(Field::Branch { word: _ }) => Err(Fail::new("a branch field")),
        None => Err(Fail::new("no field")),
    }
}

// Bytes, and the number of their fault, or 0.
const SHORT: [(&[u8], u8); 12] = [
    (&[7, 0], 13),
    (&[0, 0, 1, 2, 0, 5, 0, 0x80], 13),
    (&[7, 0, 2], 14),
    (&[7, 0, 1, 2, 0, 5], 15),
    (&[7, 0, 1, 0, 0, 5, 0, 0x80], 16),
    (&[7, 0, 3, 2, 0, 3, 0, 5, 0, 2, 0, 2, 0, 0x78], 17),
    (&[7, 0, 1, 2, 0, 5, 0, 0x80, 0], 18),
    (&[7, 0, 1, 2, 0, 5, 0, 0x81], 19),
    (&[7, 0, 1, 32, 0, 0, 0, 0, 0, 0, 0], 0),
    (&[7, 0, 1, 33, 0, 0, 0, 0, 0, 0, 0, 0], 16),
    (&[7, 0, 1, 1, 0, 0xFE, 0x7F, 0x80], 0),
    (&[7, 0, 1, 1, 0, 0xFF, 0x7F, 0x80], 17),
];

#[test]
fn refuses_each_once(rt: HostRuntime) {
    for (bytes, number) in SHORT {
        assert_eq!(rt; fault(bytes), number);
    }
}

#[test]
fn keeps_the_limits(rt: HostRuntime) {
    let mut out = [0u8; MOST_TAG_BYTES];
    long_tag(&mut out, 63, 1, 63);
    assert_eq!(rt; fault(&out[0..201]), 0);
    long_tag(&mut out, 65, 1, 65);
    assert_eq!(rt; fault(&out), 14);
    let mut wide = [0u8; MOST_TAG_BYTES];
    long_tag(&mut wide, 33, 31, 1024);
    assert_eq!(rt; fault(&wide[0..231]), 0);
    long_tag(&mut wide, 33, 31, 1025);
    assert_eq!(rt; fault(&wide[0..232]), 16);
}

#[test]
fn cuts(rt: HostRuntime) -> Result<(), Fail> {
    let mut out = [9u8; 10];
    assert_eq!(rt; cut(&EXAMPLE, 1, &mut out)?, 8);
    assert_eq!(rt; out, [7u8, 0, 1, 2, 0, 0, 0, 0x40, 9, 9]);
    let even = cut(&EXAMPLE, 2, &mut out);
    assert_eq!(rt; even.map_err(|e| e.number()), Err(22));
    let no_room = cut(&EXAMPLE, 3, &mut out);
    assert_eq!(rt; no_room.map_err(|e| e.number()), Err(23));
    Ok(())
}

#[test]
fn answers_on_two_tags(rt: HostRuntime) -> Result<(), Fail> {
    assert_eq!(rt;
        difference(&EXAMPLE, &OTHER)?,
        Difference::At { field: 0, bit: 0 }
    );
    assert_eq!(rt;
        cover(&EXAMPLE, &OTHER)?,
        Part {
            side: Side::First,
            fields: 1,
        }
    );
    assert_eq!(rt;
        relate(&OTHER, &EXAMPLE)?,
        Related {
            relation: Relation::Apart,
            deeper: -3,
            steps: 7,
        }
    );
    assert_eq!(rt;
        relate(&OTHER, &OTHER)?,
        Related {
            relation: Relation::Same,
            deeper: 0,
            steps: 0,
        }
    );
    Ok(())
}

// A second tag, and the number of the refusal beside the example.
const SECOND: [(&[u8], u8); 4] = [
    (&[7, 0, 1], 115),
    (&[8, 0, 1, 2, 0, 5, 0, 0x80], 20),
    (&[7, 0, 1, 2, 0, 0, 0, 0x80], 21),
    (&[7, 0, 1, 3, 0, 5, 0, 0x40], 21),
];

#[test]
fn refuses_on_either_side(rt: HostRuntime) {
    for (bytes, number) in SECOND {
        assert_eq!(rt; refusal(&EXAMPLE, bytes), number);
    }
    assert_eq!(rt; refusal(&OTHER[0..3], &EXAMPLE), 15);
}
