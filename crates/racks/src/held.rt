// A held tag.
ghost use Rattle.std.specs.Prelude.{◌≡◌, ◌%◌, ◌<◌, ◌≤◌, ◌++◌, length, drop, Some, None, MatchResult};
ghost use Rattle.formats.specs.Faults.{tag_fault};

use crate::refusal::RackRefusal;
use arrayvec::ArrayVec;
use formats::answers::Related;
use tags::cut::cut;
use tags::limits::MOST_TAG_BYTES;
use tags::queries::{cover, relate};
use tags::tag::Tag;

// The bytes are a tag. That it is of a rack's tree number is a fact of the rack: a held tag knows of no rack, and a tree number of its
// own would have to be compared with the rack's in as many contracts.
#[derive(Drop)]
pub(crate) struct Held {
    bytes: ArrayVec<u8, MOST_TAG_BYTES>,
    ghost reads: { tag_fault bytes.items ≡ None },
}

impl Held {
    ghost use Rattle.formats.specs.Cuts.{cut_tag};
    ghost use Rattle.formats.specs.Layout.{tree_of, count_of};
    ghost use Rattle.formats.specs.Models.{label_of};
    ghost use Rattle.histories.specs.Model.{start_fault, add_fault, joined, related_or};
    ghost use Rattle.racks.specs.Sound.{held_bytes};
    ghost use Rattle.racks.specs.Views.{refusal_of, compare_said};

    // The tag that is held.
    pub(crate) fn tag(&self) -> &[u8]
        ensures { result.now ≡ held_bytes self.now }
    {
        self.bytes.as_slice()
    }

    // The first fields of a tag.
    fn front(tag: &[u8], fields: usize) -> Held
        requires reads { tag_fault tag.now ≡ None }
        requires odd { fields % 2 ≡ 1 }
        requires within { fields ≤ count_of tag.now }
        ensures bytes { held_bytes result ≡ cut_tag tag.now fields }
        ensures tree { tree_of (held_bytes result) ≡ tree_of tag.now }
    {
        let mut bytes = ArrayVec::from([0; MOST_TAG_BYTES]);
        let len = cut(tag, fields, &mut bytes).unwrap();
        bytes.truncate(len);
        Held { bytes }
    }

    // The first tag of a place, where a rack for the tree takes it.
    pub(crate) fn first(tree: u16, tag: &[u8]) -> Result<Held, RackRefusal>
        ensures { MatchResult result (λ h. (start_fault tree tag.now ≡ None) × (held_bytes h ≡ tag.now) × (tree_of (held_bytes h) ≡ tree)) (λ e. start_fault tree tag.now ≡ Some (refusal_of e)) }
    {
        if Tag::read(tag)?.tree_number() != tree {
            return Err(RackRefusal::OtherTree);
        }
        let bytes = ArrayVec::try_from(tag).unwrap();
        Ok(Held { bytes })
    }

    // The cover of the held tag and one more, where a rack for the held tag's tree takes it.
    pub(crate) fn joined_with(&self, tag: &[u8]) -> Result<Held, RackRefusal>
        ensures { let held = held_bytes self.now in
            let fault = add_fault (tree_of held) held tag.now in
            MatchResult result (λ h. (fault ≡ None) × (held_bytes h ≡ joined held tag.now) × (tree_of (held_bytes h) ≡ tree_of held)) (λ e. fault ≡ Some (refusal_of e)) }
    {
        let held = self.tag();
        let part = cover(held, tag)?;
        Ok(Held::front(part.side.of(held, tag), part.fields))
    }

    // Writes the tag over the front of `out`, if there is room for it.
    pub(crate) fn write(&self, out: &mut [u8]) -> Result<usize, RackRefusal>
        ensures { MatchResult result (λ n. (n ≡ length (held_bytes self.now)) × (n ≤ length out.old) × (out.new ≡ held_bytes self.now ++ drop n out.old)) (λ e. (e ≡ RackRefusal.ShortOutput) × (length out.old < length (held_bytes self.now)) × (out.new ≡ out.old)) }
    {
        let tag = self.tag();
        if out.len() < tag.len() {
            return Err(RackRefusal::ShortOutput);
        }
        // One range and one copy: a helper for them would be no plainer.
        out[..tag.len()].copy_from_slice(tag);
        Ok(tag.len())
    }

    // How the nodes of two held tags of one tree stand to each other.
    pub(crate) fn related_to(&self, other: &Held) -> Result<Related, RackRefusal>
        requires { tree_of (held_bytes self.now) ≡ tree_of (held_bytes other.now) }
        ensures { compare_said result ≡ related_or (label_of (held_bytes self.now)) (label_of (held_bytes other.now)) }
    {
        Ok(relate(self.tag(), other.tag())?)
    }
}
