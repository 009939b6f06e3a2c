// The commands on sheets: they press the present host under the present code, show, save and load a sheet, and look tags up.
use crate::hosts::read_file;
use crate::line::{Hex, TagWord, number_of};
use crate::refusal::Refusal;
use crate::state::State;
use formats::layout::{BYTE_BITS, ENDS_AT, ENTRY_BYTES};
use formats::limits::MOST_FIELD_BITS;
use sheets::look::{OFFSET_BYTES, OFFSETS_AT};
use sheets::press::{ROWS, press};
use std::fs;
use std::io::Write;
use trees::host::MOST_NODES;

// As many work numbers as any tree can need.
const MOST_WORK: usize = ROWS * MOST_NODES as usize;

// No label of any tree has more fields.
const MOST_LABEL_FIELDS: usize = 29;

// As many bytes as any label can need as a tag: an end for each field, a depth for every other one, and their words.
const MOST_LABEL_BYTES: usize = ENDS_AT
    + ENTRY_BYTES * (MOST_LABEL_FIELDS + (MOST_LABEL_FIELDS + 1) / 2)
    + MOST_LABEL_FIELDS * MOST_FIELD_BITS as usize / BYTE_BITS;

// As many bytes as any sheet can need.
const MOST_SHEET: usize = OFFSETS_AT
    + OFFSET_BYTES
    + MOST_NODES as usize * (OFFSET_BYTES + MOST_LABEL_BYTES);

// Presses the present host. A refused press leaves the present sheet as it was.
fn press_into(
    state: &mut State,
    number: u16,
    work: usize,
    room: usize,
    out: &mut Vec<u8>,
) -> Result<(), Refusal> {
    let mut work = vec![in state.heap; 0u16; work]?;
    let mut room = vec![in state.heap; 0u8; room]?;
    let n = press(
        &state.host()?,
        &state.coding,
        number,
        work.as_mut_slice(),
        room.as_mut_slice(),
    )?;
    room.truncate(n);
    state.sheet = Some(room);
    writeln!(out, "pressed {n} bytes")?;
    Ok(())
}

pub fn pressing(state: &mut State, rest: &[&str], out: &mut Vec<u8>) -> Result<(), Refusal> {
    match rest {
        [number] => press_into(state, number_of(number)?, MOST_WORK, MOST_SHEET, out),
        [number, "work", work, "room", room] => {
            let number = number_of(number)?;
            let work = number_of(work)?;
            let room = number_of(room)?;
            press_into(state, number, work, room, out)
        }
        _ => Err(Refusal::NotUnderstood),
    }
}

pub fn show_sheet(state: &State, rest: &[&str], out: &mut Vec<u8>) -> Result<(), Refusal> {
    if !rest.is_empty() {
        return Err(Refusal::NotUnderstood);
    }
    let sheet = Hex(state.sheet()?);
    writeln!(out, "sheet {sheet}")?;
    Ok(())
}

pub fn save(
    rt: &HostRuntime,
    state: &State,
    rest: &[&str],
    out: &mut Vec<u8>,
) -> Result<(), Refusal> {
    let [file] = rest else {
        return Err(Refusal::NotUnderstood);
    };
    let sheet = state.sheet()?;
    if fs::write(rt, *file, sheet).is_err() {
        return Err(Refusal::CannotWrite(String::from_str(state.heap, file)?));
    }
    let n = sheet.len();
    writeln!(out, "saved {n} bytes")?;
    Ok(())
}

// A loaded file becomes the present sheet unread.
pub fn load(
    rt: &HostRuntime,
    state: &mut State,
    rest: &[&str],
    out: &mut Vec<u8>,
) -> Result<(), Refusal> {
    let [file] = rest else {
        return Err(Refusal::NotUnderstood);
    };
    let sheet = read_file(rt, state.heap, file)?;
    let n = sheet.len();
    state.sheet = Some(sheet);
    writeln!(out, "loaded {n} bytes")?;
    Ok(())
}

pub fn show_tag(state: &State, rest: &[&str], out: &mut Vec<u8>) -> Result<(), Refusal> {
    let [v] = rest else {
        return Err(Refusal::NotUnderstood);
    };
    let tag = state.tag(TagWord::Node(number_of(v)?))?;
    let tag = Hex(tag.as_slice());
    writeln!(out, "tag {tag}")?;
    Ok(())
}
