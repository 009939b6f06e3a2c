// Where things stand in the bytes of a tag, and how two bytes make a number.
ghost use Rattle.std.specs.Prelude.{◌≡◌, ◌+◌, ◌*◌, ◌/◌, slice_index};
ghost use Rattle.formats.specs.Layout.{pair_at};

pub const NUMBER_AT: usize = 0;

pub const COUNT_AT: usize = 2;

pub const ENDS_AT: usize = 3;

// The bytes of an end or a depth.
pub const ENTRY_BYTES: usize = 2;

pub const BYTE_BITS: usize = 8;

// The byte at `at`; 0 past the end.
pub fn byte(bytes: &[u8], at: usize) -> u8
    ensures { result ≡ slice_index bytes.now at }
{
    bytes.get(at).copied().unwrap_or(0)
}

// The number in two bytes, low byte first; a byte past the end is 0.
pub fn pair(bytes: &[u8], at: usize) -> u16
    ensures { result ≡ pair_at bytes.now at }
{
    u16::from_le_bytes([byte(bytes, at), byte(bytes, at.saturating_add(1))])
}

// The bytes that so many bits fill.
pub fn filled(bits: u16) -> usize
    ensures { result ≡ (bits + 7) / 8 }
{
    (bits as usize).div_ceil(BYTE_BITS)
}

// Where the body of a tag of `k` fields begins: after `k` ends, and a depth for each of the (k + 1) / 2 path fields.
pub fn head_of(k: u8) -> usize
    ensures { result ≡ 3 * k + 4 }
{
    ENDS_AT + ENTRY_BYTES * k as usize + (k as usize + 1)
}
