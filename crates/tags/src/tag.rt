// A tag: bytes that have been read.
ghost use Rattle.std.specs.Prelude.{◌≡◌, ℕ, ◌<◌, None, MatchResult, OnOk};
ghost use Rattle.formats.specs.Faults.{tag_fault};

use crate::field::{Field, FieldWord};
use crate::layout::{begin_of, count_of, depth_of, depths_rise, end_of, ends_rise, unused};
use crate::limits::MOST_FIELDS;
use formats::fault::TagFault;
use formats::layout::{BYTE_BITS, COUNT_AT, NUMBER_AT, filled, head_of, pair};

// The first fault that applies.
#[tactic(auto, unfolding(formats::specs::Faults::tag_fault))]
fn check(bytes: &[u8]) -> Result<(), TagFault>
    ensures { MatchResult result (λ _. tag_fault bytes.now ≡ None) (λ e. tag_fault bytes.now ≡ Some e) }
{
    if bytes.len() <= COUNT_AT || pair(bytes, NUMBER_AT) == 0 {
        return Err(TagFault::Number);
    }
    let k = count_of(bytes);
    if k % 2 == 0 || k > MOST_FIELDS {
        return Err(TagFault::Count);
    }
    if bytes.len() < head_of(k) {
        return Err(TagFault::Head);
    }
    if !ends_rise(bytes, k) {
        return Err(TagFault::End);
    }
    if !depths_rise(bytes, k.div_ceil(2)) {
        return Err(TagFault::Depth);
    }
    let bits = end_of(bytes, k - 1);
    if bytes.len() != head_of(k) + filled(bits) {
        return Err(TagFault::Length);
    }
    // Its length is known here, so the last byte is there: `last` would bring a case that never comes.
    if unused(bytes[bytes.len() - 1], bits) != 0 {
        return Err(TagFault::Spare);
    }
    Ok(())
}

// The bytes of a tag, as they were read: nothing is copied.
#[derive(Clone, Copy)]
pub struct Tag<'a> {
    pub(crate) bytes: &'a [u8],
    pub ghost readable: { tag_fault bytes.now ≡ None },
}

impl<'a> Tag<'a> {
    ghost use Rattle.formats.specs.Layout.{tree_of, count_of};
    ghost use Rattle.formats.specs.Models.{field_at, label_of};
    ghost use Rattle.formats.specs.Pairs.{nth_field, last_depth};
    ghost use Rattle.formats.specs.Theorems.{Reads};
    ghost use Rattle.tags.specs.Views.{raw, end_answer, depth_answer, last_answer, field_answer, view, view_at, shown, said, said_in};

    // Bytes that are a tag are those of the number and the label that they read as.
    pub fn read(bytes: &'a [u8]) -> Result<Tag<'a>, TagFault>
        ensures told { MatchResult result (λ t. (tag_fault bytes.now ≡ None) × (raw t ≡ bytes.now)) (λ e. tag_fault bytes.now ≡ Some e) }
        ensures reads { OnOk result (Reads bytes.now) }
    {
        check(bytes)?;
        Ok(Tag { bytes })
    }

    pub fn tree_number(&self) -> u16
        ensures { result ≡ tree_of (raw self.now) }
    {
        pair(self.bytes, NUMBER_AT)
    }

    // How many fields there are.
    pub fn count(&self) -> u8
        ensures { result ≡ count_of (raw self.now) }
    {
        count_of(self.bytes)
    }

    // Where field `i` ends, in bits; none at or past the count.
    pub fn end(&self, i: usize) -> Option<u16>
        ensures { result ≡ end_answer (raw self.now) i }
    {
        // Below the count, which is a byte, the cast loses nothing, and `try_from` would be one more test; so too in `depth` and `field`.
        (i < self.count() as usize).then(|| end_of(self.bytes, i as u8))
    }

    // Depth entry `j`, that of the path field `2 * j`; none past the last.
    pub fn depth(&self, j: usize) -> Option<u16>
        ensures { result ≡ depth_answer (raw self.now) j }
    {
        (j < (self.count() as usize).div_ceil(2)).then(|| depth_of(self.bytes, j as u8))
    }

    // The depth of the last path field: the depth of the node that the tag names.
    pub fn last_depth(&self) -> u16
        ensures value { result ≡ last_answer (raw self.now) }
        ensures reads { result ≡ last_depth (label_of (raw self.now)) }
    {
        depth_of(self.bytes, self.count() / 2)
    }

    // Field `i`; none at or past the count.
    pub fn field(&self, i: usize) -> Option<Field<'a>>
        ensures shows { shown result ≡ field_answer (raw self.now) i }
        ensures reads { said_in result ≡ nth_field (label_of (raw self.now)) i }
    {
        // An `if`, since `then` was tried and did not prove: of a closure that calls `pick` neither fact is known to its caller.
        if i < self.count() as usize {
            Some(self.pick(i as u8))
        } else {
            None
        }
    }

    // Field `i` of those that there are.
    pub(crate) fn pick(&self, i: u8) -> Field<'a>
        requires { i < count_of (raw self.now) }
        ensures shows { view result ≡ view_at (raw self.now) i }
        ensures reads { said result ≡ field_at (raw self.now) i }
    {
        let begin = begin_of(self.bytes, i);
        let end = end_of(self.bytes, i);
        let head = head_of(self.count());
        let bytes = &self.bytes[head + begin as usize / BYTE_BITS..head + filled(end)];
        let first_bit = begin as usize;
        let len = (end - begin) as usize;
        let word = FieldWord {
            bytes,
            first_bit,
            len,
        };
        if i % 2 == 0 {
            let depth = depth_of(self.bytes, i / 2);
            Field::Path { word, depth }
        } else {
            Field::Branch { word }
        }
    }
}
