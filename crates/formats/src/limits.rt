// The limits of the format, each in one place.

// The fields of a tag.
pub const MOST_FIELDS: u8 = 63;

// The bits of one field.
pub const MOST_FIELD_BITS: u32 = 32;

// The bits of a body.
pub const MOST_BODY_BITS: u16 = 1024;

pub const MOST_DEPTH: u16 = 32_766;

// The bytes of a tag.
pub const MOST_TAG_BYTES: usize = 321;
