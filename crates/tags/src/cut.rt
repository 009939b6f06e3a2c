// The first fields of a tag, as a tag.
ghost use Rattle.std.specs.Prelude.{◌≡◌, ℕ, ◌+◌, ◌-◌, ◌*◌, ◌/◌, ◌%◌, ◌<◌, ◌≤◌, ◌++◌, length, take, drop, IfOk};
ghost use Rattle.formats.specs.Cuts.{cut_answer, cut_output};
ghost use Rattle.formats.specs.Theorems.{Shortened};
ghost use Rattle.formats.specs.Layout.{count_of, spare_of};
ghost use Rattle.formats.proofs.Cutting.{cut_bytes, cut_size, cleared};
ghost use Rattle.tags.specs.Views.{raw};

use crate::layout::{end_of, past_ends, unused};
use crate::tag::Tag;
use formats::fault::CutRefusal;
use formats::layout::{COUNT_AT, ENDS_AT, ENTRY_BYTES, NUMBER_AT, filled, head_of};

// The last byte of so many bits, its unused bits 0.
fn clear(b: u8, bits: u16) -> u8
    ensures { result ≡ cleared b (spare_of bits) }
{
    b - unused(b, bits)
}

// How many bytes the first `m` fields fill as a tag.
fn cut_size(tag: &Tag, m: u8) -> usize
    requires { 1 ≤ m }
    ensures { result ≡ cut_size (raw tag.now) m }
{
    head_of(m) + filled(end_of(tag.bytes, m - 1))
}

// Writes the first `m` fields over the front of `out`.
fn write_cut(tag: &Tag, m: u8, out: &mut [u8])
    requires odd { m % 2 ≡ 1 }
    requires fields { m ≤ count_of (raw tag.now) }
    requires room { cut_size (raw tag.now) m ≤ length out.old }
    ensures { out.new ≡ cut_bytes (raw tag.now) m ++ drop (cut_size (raw tag.now) m) out.old }
{
    let bytes = tag.bytes;
    let bits = end_of(bytes, m - 1);
    let k = tag.count();
    let head = head_of(k);
    let last = head + filled(bits) - 1;
    let depths_at = past_ends(k);
    let (number, rest) = out.split_at_mut(COUNT_AT);
    let (count, rest) = rest.split_at_mut(ENDS_AT - COUNT_AT);
    let (ends, rest) = rest.split_at_mut(ENTRY_BYTES * m as usize);
    let (depths, rest) = rest.split_at_mut(m as usize + 1);
    let (body, rest) = rest.split_at_mut(last - head);
    number.copy_from_slice(&bytes[NUMBER_AT..COUNT_AT]);
    count[0] = m;
    ends.copy_from_slice(&bytes[ENDS_AT..past_ends(m)]);
    depths.copy_from_slice(&bytes[depths_at..depths_at + (m as usize + 1)]);
    body.copy_from_slice(&bytes[head..last]);
    rest[0] = clear(bytes[last], bits);
}

// Writes the first `m` fields of the tag in `bytes` as a tag over the front of `out`, and answers its length.
pub fn cut(bytes: &[u8], m: usize, out: &mut [u8]) -> Result<usize, CutRefusal>
    ensures answer { result ≡ cut_answer bytes.now m (length out.old) }
    ensures output { out.new ≡ cut_output bytes.now m out.old }
    ensures reads { IfOk result (λ n. Shortened bytes.now m (take n out.new)) }
{
    let tag = Tag::read(bytes)?;
    if m % 2 == 0 || m > tag.count() as usize {
        return Err(CutRefusal::Fields);
    }
    // At most the count, which is a byte: the cast loses nothing, and `try_from` would be one more test.
    let m = m as u8;
    let size = cut_size(&tag, m);
    if out.len() < size {
        return Err(CutRefusal::Room);
    }
    write_cut(&tag, m, out);
    Ok(size)
}
