// The words and depths of two fields, side by side.
ghost use Rattle.std.specs.Prelude.{◌≡◌, ◌||◌, Some};
ghost use Rattle.formats.specs.Pairs.{lead, same_word, zero_first, begins, unlike, misplaced, clash_at};
ghost use Rattle.tags.specs.Views.{bits_in, said};

use crate::field::{Field, FieldWord};

impl FieldWord<'_> {
    // How many bits the words share from their start.
    pub(crate) fn common(&self, other: &FieldWord) -> usize
        ensures { result ≡ lead (bits_in self.now) (bits_in other.now) }
    {
        let shorter = self.len.min(other.len);
        (0..shorter)
            .find(|t| self.bit(*t) != other.bit(*t))
            .unwrap_or(shorter)
    }

    // The words are the same: by what they share, which the queries answer with too, so that bits are compared in one place.
    pub(crate) fn same(&self, other: &FieldWord) -> bool
        ensures { result ≡ same_word (bits_in self.now) (bits_in other.now) }
    {
        self.common(other) >= self.len.max(other.len)
    }

    // This one has 0 at the first bit at which the words differ.
    pub(crate) fn zero_first(&self, other: &FieldWord) -> bool
        ensures { result ≡ zero_first (bits_in self.now) (bits_in other.now) }
    {
        let shared = self.common(other);
        shared < other.len && self.bit(shared) == Some(false)
    }

    // One word is the beginning of the other.
    pub(crate) fn one_begins(&self, other: &FieldWord) -> bool
        ensures { result ≡ (begins (bits_in self.now) (bits_in other.now) || begins (bits_in other.now) (bits_in self.now)) }
    {
        self.common(other) >= self.len.min(other.len)
    }
}

impl Field<'_> {
    // They are path fields, with two depths.
    pub(crate) fn unlike(&self, other: &Field) -> bool
        ensures { result ≡ unlike (said self.now) (said other.now) }
    {
        match (*self, *other) {
            (Field::Path { depth: first, .. }, Field::Path { depth: second, .. }) => {
                first != second
            }
            _ => false,
        }
    }

    // They are path fields, and the one with 0 does not have the smaller depth.
    pub(crate) fn misplaced(&self, other: &Field) -> bool
        ensures { result ≡ misplaced (said self.now) (said other.now) }
    {
        match (*self, *other) {
            (
                Field::Path {
                    word: a,
                    depth: first,
                },
                Field::Path {
                    word: b,
                    depth: second,
                },
            ) => if a.zero_first(&b) {
                first >= second
            } else {
                second >= first
            },
            _ => false,
        }
    }

    // With these two as the first fields that differ, two tags cannot be of one tree.
    pub(crate) fn clashes(&self, other: &Field) -> bool
        ensures { result ≡ clash_at (Some (said self.now)) (Some (said other.now)) }
    {
        self.word().one_begins(&other.word()) || self.misplaced(other)
    }
}
