// A sheet, written from the rows. The tree number comes beside the marks, since measuring knows of none.
ghost use Rattle.std.specs.Prelude.{◌≡◌, ℕ, ◌+◌, ◌*◌, ◌<◌, ◌≤◌, length};
ghost use Rattle.writing.specs.Writes.{Wrote};
ghost use Rattle.writing.specs.Sheets.{row_few, row_sheet, offsets_to, tags_to};

use crate::bytes::put;
use crate::layout::{NODES_AT, OFFSET_BYTES, OFFSETS_AT, header};
use crate::tagging::{put_tag, tag_size};
use codes::code::Code;
use formats::layout::NUMBER_AT;
use formats::limits::MOST_FIELDS;
use rows::finished::Marks;

// Whether each label has no more fields than a tag can hold.
pub fn few_fields<C: Code>(marks: &Marks<C>) -> bool
    ensures { result ≡ row_few (C.words marks.now.words.code.now) marks.now.words.up.row.now }
{
    marks.fields.iter().all(|k| *k <= MOST_FIELDS as u16)
}

// How many bytes a sheet has.
pub fn measure<C: Code>(marks: &Marks<C>) -> usize
    ensures { (number : ℕ) → result ≡ length (row_sheet (C.words marks.now.words.code.now) marks.now.words.up.row.now number) }
{
    let n = marks.words.up.row.len();
    header(n as u16) + (0..n).map(|v| tag_size(marks, v)).sum::<usize>()
}

// Where each tag begins and where the last one ends, and the tags of all nodes.
#[tactic(auto, using(crate::proofs::Sheeted::tags_next))]
fn put_nodes<C: Code>(marks: &Marks<C>, number: u16, offsets: &mut [u8], tags: &mut [u8])
    requires offsets_room { 4 * (length marks.now.words.up.row.now + 1) ≤ length offsets.old }
    requires tags_room { length (tags_to (C.words marks.now.words.code.now) marks.now.words.up.row.now number (length marks.now.words.up.row.now)) ≤ length tags.old }
    ensures offsets { Wrote 0 (offsets_to (C.words marks.now.words.code.now) marks.now.words.up.row.now number (length marks.now.words.up.row.now + 1)) offsets.old offsets.new }
    ensures tags { Wrote 0 (tags_to (C.words marks.now.words.code.now) marks.now.words.up.row.now number (length marks.now.words.up.row.now)) tags.old tags.new }
{
    let n = marks.words.up.row.len();
    let first = header(n as u16);
    let mut end = 0;
    // A node's number finds its offset and its tag; of what is written through `chunks_exact_mut` a proof knows the length alone. The end
    // is added up here: an iterator of ends beside would be asked for two of them in each turn.
    for v in 0..n {
        put(
            offsets,
            OFFSET_BYTES * v,
            &((first + end) as u32).to_le_bytes(),
        );
        let begin = end;
        end += tag_size(marks, v);
        put_tag(marks, number, v, &mut tags[begin..end]);
    }
    put(
        offsets,
        OFFSET_BYTES * n,
        &((first + end) as u32).to_le_bytes(),
    );
}

// The sheet.
#[tactic(auto, using(crate::proofs::Sheeted::sheet_long))]
pub fn put_sheet<C: Code>(marks: &Marks<C>, number: u16, out: &mut [u8])
    requires { length (row_sheet (C.words marks.now.words.code.now) marks.now.words.up.row.now number) ≤ length out.old }
    ensures { Wrote 0 (row_sheet (C.words marks.now.words.code.now) marks.now.words.up.row.now number) out.old out.new }
{
    let n = marks.words.up.row.len() as u16;
    let (head, tags) = out.split_at_mut(header(n));
    let (numbers, offsets) = head.split_at_mut(OFFSETS_AT);
    put(numbers, NUMBER_AT, &number.to_le_bytes());
    put(numbers, NODES_AT, &n.to_le_bytes());
    put_nodes(marks, number, offsets, tags);
}
