// One tag, written front to back from the rows. A label is written by first writing that of the node above its path, so a call goes
// as deep as the label has path fields. A node is given as the marks and its number: a struct of both is no plainer, since it would have
// to say of each node above that its marks are the same.
ghost use Rattle.std.specs.Prelude.{◌≡◌, ℕ, ◌+◌, ◌*◌, ◌^◌, ◌<◌, ◌≤◌, false, length, slice_index_or, MatchOption};
ghost use Rattle.std.specs.List.{flat_map};
ghost use Rattle.formats.specs.Limits.{most_tag_bytes};
ghost use Rattle.formats.specs.Label.{body_in, depths_in};
ghost use Rattle.formats.specs.Models.{two};
ghost use Rattle.labels.specs.Labels.{path_word};
ghost use Rattle.rows.specs.Chains.{at, Held};
ghost use Rattle.rows.specs.Rows.{parents_in, row_label};
ghost use Rattle.writing.specs.Writes.{Wrote};
ghost use Rattle.writing.specs.Bits.{unpacked};
ghost use Rattle.writing.specs.Tags.{ends_at, row_tag, Turned, Straight};

use crate::bits::put_word;
use crate::bytes::put;
use codes::code::Code;
use codes::word::{Word, joined};
use formats::layout::{COUNT_AT, ENDS_AT, ENTRY_BYTES, NUMBER_AT, filled, head_of};
use rows::finished::{Marks, Words};

// Where a path leaves the one above it: the node there, and the branch word.
#[derive(Clone, Copy)]
struct Turn {
    above: usize,
    word: Word,
}

// The word at a place of rows.
fn word_at(rows: &Words, i: usize) -> Word
    requires high { i < length rows.now.high.now }
    requires low { i < length rows.now.low.now }
    requires len { i < length rows.now.len.now }
    requires short { at rows.now.len.now i ≤ 32 }
    ensures { Held result rows.now.high.now rows.now.low.now rows.now.len.now i }
{
    Word {
        value: joined(rows.high[i], rows.low[i]),
        len: rows.len[i] as u8,
    }
}

// The path word of a node.
#[tactic(auto, using(rows::proofs::Labelled::path_short))]
fn path_word<C: Code>(marks: &Marks<C>, v: usize) -> Word
    requires { v < length marks.now.words.up.row.now }
    ensures is { result ≡ path_word (parents_in marks.now.words.up.row.now) (length marks.now.words.up.row.now) (C.words marks.now.words.code.now) v }
    ensures short { result.len ≤ 32 }
{
    word_at(&marks.words.path, v)
}

// The turn that leads to the path of a node, and none on the root's path.
#[tactic(auto, using(crate::proofs::Tagged::straight, crate::proofs::Tagged::t_in))]
fn turn_at<C: Code>(marks: &Marks<C>, v: usize) -> Option<Turn>
    requires { v < length marks.now.words.up.row.now }
    ensures { MatchOption result (Straight (C.words marks.now.words.code.now) marks.now.words.up.row.now v) (λ turn. Turned (C.words marks.now.words.code.now) marks.now.words.up.row.now v turn.above turn.word) }
{
    let top = marks.words.top[v] as usize;
    // 0 is the root here, the top of its own path, and not a mark for none.
    if top == 0 {
        return None;
    }
    Some(Turn {
        above: marks.words.up.row[top] as usize,
        word: word_at(&marks.words.branch, top),
    })
}

// The label of a node: where its words end, the depths at its path fields, and the bits of its words, these into clear bytes.
#[tactic(auto, using(crate::proofs::Tagged::some_field, crate::proofs::Tagged::last_inside, crate::proofs::Tagged::turned_bits))]
fn put_label<C: Code>(
    marks: &Marks<C>,
    v: usize,
    ends: &mut [u8],
    depths: &mut [u8],
    body: &mut [u8],
)
    requires inside { v < length marks.now.words.up.row.now }
    requires ends_room { 2 * length (row_label (C.words marks.now.words.code.now) marks.now.words.up.row.now v) ≤ length ends.old }
    requires depths_room { length (row_label (C.words marks.now.words.code.now) marks.now.words.up.row.now v) + 1 ≤ length depths.old }
    requires body_room { length (body_in (row_label (C.words marks.now.words.code.now) marks.now.words.up.row.now v)) ≤ 8 * length body.old }
    requires long { length body.old < 2 ^ 60 }
    requires clear { (j : ℕ) → slice_index_or (unpacked body.old) j false ≡ false }
    ensures ends { Wrote 0 (flat_map two (ends_at (row_label (C.words marks.now.words.code.now) marks.now.words.up.row.now v))) ends.old ends.new }
    ensures depths { Wrote 0 (flat_map two (depths_in (row_label (C.words marks.now.words.code.now) marks.now.words.up.row.now v))) depths.old depths.new }
    ensures body { Wrote 0 (body_in (row_label (C.words marks.now.words.code.now) marks.now.words.up.row.now v)) (unpacked body.old) (unpacked body.new) }
{
    let word = path_word(marks, v);
    let last = marks.fields[v] as usize - 1;
    let end = marks.bits[v];
    let begin = end - word.len as u16;
    if let Some(turn) = turn_at(marks, v) {
        put_label(marks, turn.above, ends, depths, body);
        put(ends, ENTRY_BYTES * (last - 1), &begin.to_le_bytes());
        put_word(body, begin as usize - turn.word.len as usize, turn.word);
    }
    put(ends, ENTRY_BYTES * last, &end.to_le_bytes());
    put(depths, last, &marks.depth[v].to_le_bytes());
    put_word(body, begin as usize, word);
}

// How many bytes a tag has.
#[tactic(auto, using(crate::proofs::Tagged::tag_long, crate::proofs::Tagged::tag_small, rows::proofs::Labelled::few_fields))]
pub fn tag_size<C: Code>(marks: &Marks<C>, v: usize) -> usize
    requires { v < length marks.now.words.up.row.now }
    ensures is { (number : ℕ) → result ≡ length (row_tag (C.words marks.now.words.code.now) marks.now.words.up.row.now number v) }
    ensures small { result ≤ most_tag_bytes }
{
    head_of(marks.fields[v] as u8) + filled(marks.bits[v])
}

// The tag of a node, over all of an output.
#[tactic(auto, using(crate::proofs::Tagged::tag_long, rows::proofs::Labelled::few_fields, rows::proofs::Labelled::few_bits))]
pub fn put_tag<C: Code>(marks: &Marks<C>, number: u16, v: usize, out: &mut [u8])
    requires inside { v < length marks.now.words.up.row.now }
    requires room { length out.old ≡ length (row_tag (C.words marks.now.words.code.now) marks.now.words.up.row.now number v) }
    ensures { out.new ≡ row_tag (C.words marks.now.words.code.now) marks.now.words.up.row.now number v }
{
    let k = marks.fields[v] as usize;
    let (head, rest) = out.split_at_mut(ENDS_AT);
    let (ends, rest) = rest.split_at_mut(ENTRY_BYTES * k);
    let (depths, body) = rest.split_at_mut(k + 1);
    put(head, NUMBER_AT, &number.to_le_bytes());
    head[COUNT_AT] = k as u8;
    body.fill(0);
    put_label(marks, v, ends, depths, body);
}
