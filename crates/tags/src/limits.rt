// The limits of the format.
pub use formats::limits::{
    MOST_BODY_BITS, MOST_DEPTH, MOST_FIELD_BITS, MOST_FIELDS, MOST_TAG_BYTES,
};
