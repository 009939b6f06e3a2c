// Where things stand in the bytes of a tag. What stands past the end is taken for 0. The functions take bytes and no `Tag`, since they
// are what reading tests the bytes with, before there is one.
ghost use Rattle.std.specs.Prelude.{◌≡◌, ℕ, ◌+◌, ◌-◌, ◌*◌, ◌/◌, ◌%◌, ◌^◌, ◌<◌, ◌≤◌, length, slice_index};
ghost use Rattle.formats.specs.Layout.{pair_at, count_of, end_at, begin_at, depth_at, end_step, depth_step, ends_fine, depths_fine, spare_of, bit_at};

use crate::limits::{MOST_BODY_BITS, MOST_DEPTH, MOST_FIELD_BITS};
use formats::layout::{BYTE_BITS, COUNT_AT, ENDS_AT, ENTRY_BYTES, byte, filled, pair};

// How many fields a tag counts.
pub(crate) fn count_of(bytes: &[u8]) -> u8
    ensures { result ≡ count_of bytes.now }
{
    byte(bytes, COUNT_AT)
}

// Where what follows the first `k` ends stands: end `k`, or the depths after all of them.
pub(crate) fn past_ends(k: u8) -> usize
    ensures { result ≡ 3 + 2 * k }
{
    ENDS_AT + ENTRY_BYTES * k as usize
}

// Where field `i` ends, in bits.
pub(crate) fn end_of(bytes: &[u8], i: u8) -> u16
    ensures { result ≡ end_at bytes.now i }
{
    pair(bytes, past_ends(i))
}

// Where field `i` begins, in bits.
pub(crate) fn begin_of(bytes: &[u8], i: u8) -> u16
    ensures { result ≡ begin_at bytes.now i }
{
    i.checked_sub(1).map_or(0, |before| end_of(bytes, before))
}

// Depth entry `j`.
pub(crate) fn depth_of(bytes: &[u8], j: u8) -> u16
    ensures { result ≡ depth_at bytes.now j }
{
    pair(bytes, past_ends(count_of(bytes)) + ENTRY_BYTES * j as usize)
}

// How many bits of the last byte of so many bits are unused.
fn spare(bits: u16) -> usize
    ensures value { result ≡ spare_of bits }
    ensures few { result < 8 }
{
    filled(bits) * BYTE_BITS - bits as usize
}

// What the unused bits of the last byte of so many bits hold.
pub(crate) fn unused(b: u8, bits: u16) -> u8
    ensures { result ≡ b % 2 ^ spare_of bits }
{
    b % (1 << spare(bits))
}

// Bit `t` from `first_bit` on: the first byte is the one that has `first_bit`, and a byte's high bit comes first. The library has no bit
// of a byte, so this is the one place that shifts.
pub(crate) fn bit(bytes: &[u8], first_bit: usize, t: usize) -> bool
    ensures { result ≡ bit_at bytes.now (first_bit % 8 + t) }
{
    let past = first_bit % BYTE_BITS + t % BYTE_BITS;
    (byte(bytes, t / BYTE_BITS + past / BYTE_BITS) >> (BYTE_BITS - 1 - past % BYTE_BITS)) % 2 == 1
}

// An end may follow the one before it.
fn end_follows(before: u16, end: u16) -> bool
    ensures { result ≡ end_step before end }
{
    before < end && end as u32 <= before as u32 + MOST_FIELD_BITS && end <= MOST_BODY_BITS
}

// A depth is at least `least`, and not too deep.
fn depth_follows(least: u32, depth: u16) -> bool
    ensures { result ≡ depth_step least depth }
{
    least <= depth as u32 && depth <= MOST_DEPTH
}

// The first `k` ends.
pub(crate) fn ends_rise(bytes: &[u8], k: u8) -> bool
    ensures { result ≡ ends_fine bytes.now k }
{
    (0..k)
        .try_fold(0, |before, i| {
            let end = end_of(bytes, i);
            end_follows(before, end).then_some(end)
        })
        .is_some()
}

// The first `n` depths.
pub(crate) fn depths_rise(bytes: &[u8], n: u8) -> bool
    ensures { result ≡ depths_fine bytes.now n }
{
    (0..n)
        .try_fold(0, |least, j| {
            let depth = depth_of(bytes, j);
            depth_follows(least, depth).then_some(depth as u32 + 1)
        })
        .is_some()
}
