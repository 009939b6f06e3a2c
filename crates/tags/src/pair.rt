// Two tags side by side.
ghost use Rattle.std.specs.Prelude.{◌≡◌, ◌+◌, ◌-◌, ◌*◌, ◌≤◌, ◌&&◌, true, false, None, Some, MatchOption, MatchResult};
ghost use Rattle.std.proofs.Math.IntN.{sub_ℕ};
ghost use Rattle.formats.specs.Layout.{count_of};
ghost use Rattle.formats.specs.Models.{label_of};
ghost use Rattle.formats.specs.Pairs.{first_apart, nth_field, clash, difference, cover, ended, relation_by, related};
ghost use Rattle.formats.specs.Queries.{pair_fault};
ghost use Rattle.formats.specs.Theorems.{Exact};
ghost use Rattle.tags.specs.Views.{raw};

use crate::field::Field;
use crate::tag::Tag;
use formats::answers::{Difference, Part, Related, Relation, Side};
use formats::fault::PairRefusal;

// The first field number at which a tag has ended or the words differ; none where the two cannot be of one tree.
fn parting(first: &Tag, second: &Tag) -> Option<u8>
    ensures { MatchOption result (clash (label_of (raw first.now)) (label_of (raw second.now)) ≡ true) (λ j. (j ≡ first_apart (label_of (raw first.now)) (label_of (raw second.now))) × (clash (label_of (raw first.now)) (label_of (raw second.now)) ≡ false)) }
{
    // By the fields' numbers, since the answer is one; an iterator of two tags' fields would be longer than this loop.
    let shorter = first.count().min(second.count());
    for j in 0..shorter {
        let x = first.pick(j);
        let y = second.pick(j);
        if !x.word().same(&y.word()) {
            return if x.clashes(&y) { None } else { Some(j) };
        }
        if x.unlike(&y) {
            return None;
        }
    }
    Some(shorter)
}

// Of two depths and that of the cover.
fn measured(relation: Relation, first: u16, second: u16, cover: u16) -> Related
    requires { 2 * cover ≤ first + second }
    ensures relation { result.relation ≡ relation }
    ensures deeper { result.deeper ≡ sub_ℕ second first }
    ensures steps { result.steps ≡ first + second - 2 * cover }
{
    Related {
        relation,
        deeper: second as i32 - first as i32,
        steps: first as u32 + second as u32 - 2 * cover as u32,
    }
}

// Two tags that can be of one tree, and the first field number at which one has ended or the words differ.
#[derive(Clone, Copy)]
pub(crate) struct Pair<'a> {
    first: Tag<'a>,
    second: Tag<'a>,
    at: usize,
    ghost fine: { pair_fault (raw first) (raw second) ≡ None },
    ghost clear: { clash (label_of (raw first)) (label_of (raw second)) ≡ false },
    ghost apart: { at ≡ first_apart (label_of (raw first)) (label_of (raw second)) },
}

impl<'a> Pair<'a> {
    // Both are tags, of one tree number, that can be of one tree.
    pub(crate) fn read(first: &'a [u8], second: &'a [u8]) -> Result<Pair<'a>, PairRefusal>
        ensures { MatchResult result (λ p. (raw p.first ≡ first.now) × (raw p.second ≡ second.now)) (λ e. pair_fault first.now second.now ≡ Some e) }
    {
        let first = Tag::read(first).map_err(|fault| PairRefusal::OneTag {
            side: Side::First,
            fault,
        })?;
        let second = Tag::read(second).map_err(|fault| PairRefusal::OneTag {
            side: Side::Second,
            fault,
        })?;
        if first.tree_number() != second.tree_number() {
            return Err(PairRefusal::TreeNumbers);
        }
        let at = parting(&first, &second).ok_or(PairRefusal::NotOneTree)?;
        Ok(Pair {
            first,
            second,
            at: at as usize,
        })
    }

    // Where they differ.
    pub(crate) fn difference(&self) -> Difference
        ensures { result ≡ difference (label_of (raw self.now.first)) (label_of (raw self.now.second)) }
    {
        match (self.first.field(self.at), self.second.field(self.at)) {
            (None, None) => Difference::Same,
            (None, Some(_)) => Difference::FirstEnded,
            (Some(_), None) => Difference::SecondEnded,
            (Some(x), Some(y)) => Difference::At {
                field: self.at,
                bit: x.word().common(&y.word()),
            },
        }
    }

    // What they share.
    pub(crate) fn cover(&self) -> Part
        ensures { result ≡ cover (label_of (raw self.now.first)) (label_of (raw self.now.second)) }
    {
        let (side, fields) = match (self.first.field(self.at), self.second.field(self.at)) {
            // The first has ended, alone or with the second.
            (None, _) => (Side::First, self.first.count() as usize),
            (Some(_), None) => (Side::Second, self.second.count() as usize),
            (Some(x), Some(y)) => match x {
                Field::Branch { .. } => (Side::First, self.at),
                Field::Path { word, .. } => if word.zero_first(&y.word()) {
                    (Side::First, self.at + 1)
                } else {
                    (Side::Second, self.at + 1)
                },
            },
        };
        Part { side, fields }
    }

    // How they stand to each other: same where both have ended, else by whether the cover is the whole of its side.
    fn relation(&self, cover: &Part) -> Relation
        ensures { result ≡ relation_by (ended (nth_field (label_of (raw self.now.first)) self.now.at) && ended (nth_field (label_of (raw self.now.second)) self.now.at)) cover.now (count_of (raw self.now.first)) (count_of (raw self.now.second)) }
    {
        if self.first.field(self.at).is_none() && self.second.field(self.at).is_none() {
            return Relation::Same;
        }
        if cover.fields != cover.side.of(self.first.count(), self.second.count()) as usize {
            return Relation::Apart;
        }
        match cover.side {
            Side::First => Relation::FirstAbove,
            Side::Second => Relation::SecondAbove,
        }
    }

    // How they stand to each other, how much deeper the second is, and the steps between them.
    pub(crate) fn relate(&self) -> Related
        ensures answer { result ≡ related (label_of (raw self.now.first)) (label_of (raw self.now.second)) }
        ensures exact { Exact (label_of (raw self.now.first)) (label_of (raw self.now.second)) result }
    {
        let cover = self.cover();
        let shared = cover
            .side
            .of(self.first, self.second)
            .depth(cover.fields / 2)
            .unwrap();
        measured(
            self.relation(&cover),
            self.first.last_depth(),
            self.second.last_depth(),
            shared,
        )
    }
}
