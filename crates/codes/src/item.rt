// An item of a list of weights.
ghost use Rattle.std.specs.Prelude.{◌≡◌, ◌-◌, ◌<◌, ◌≤◌, length, slice_index};
ghost use Rattle.codes.specs.Weighing.{most_weight, Weights, accepts, sum_before, sum_of_all, added_to, sums_at, next_index, Exactly};

// The largest sum of a list that codes take. A tree of crate `trees` has as many nodes at most, so that the sizes of its parts are
// weights that codes take; the two numbers are not tied, since codes know no trees.
const MOST_WEIGHT: u32 = 32767;

// The sum of the weights before an item, and the sum of all.
#[derive(Clone, Copy)]
struct Sums {
    before: u32,
    total: u32,
}

// An item of a list, with its sums. Any list and any index will do: where codes don't take the list there are no sums.
#[derive(Clone, Copy)]
pub struct Item<'a> {
    weights: &'a [u16],
    index: usize,
    sums: Option<Sums>,
    ghost known: { sums ≡ sums_at weights.now index },
}

// A weight; 0 past the end. Of a list and an index, and no method: `previous` asks for a weight before there is an item there.
fn weight_at(weights: &[u16], index: usize) -> u32
    ensures { result ≡ slice_index weights.now index }
{
    weights.get(index).map_or(0, |weight| u32::from(*weight))
}

// A sum with the weights of a list added; none where a weight is 0, or the sum is larger than codes take.
fn added(mut sum: u32, weights: &[u16]) -> Option<u32>
    requires { sum ≤ most_weight }
    ensures { result ≡ added_to sum weights.now }
{
    for weight in weights {
        sum += u32::from(*weight);
        if *weight == 0 || sum > MOST_WEIGHT {
            return None;
        }
    }
    Some(sum)
}

impl Sums {
    // The sums at an index, in one pass over the list; none where codes don't take it.
    #[tactic(auto, using(std::proofs::lemmas::Grind::common_steps, std::proofs::lemmas::List::take_min, crate::proofs::Accepting::positive_append))]
    fn at(weights: &[u16], index: usize) -> Option<Sums>
        ensures { result ≡ sums_at weights.now index }
    {
        let (front, back) = weights.split_at(index.min(weights.len()));
        let before = added(0, front)?;
        let total = added(before, back)?;
        Some(Sums { before, total })
    }
}

impl<'a> Item<'a> {
    // The item at `index`, in one pass over the list.
    pub fn at(weights: &'a [u16], index: usize) -> Item<'a>
        ensures list { result.weights.now ≡ weights.now }
        ensures place { result.index ≡ index }
    {
        Item {
            weights,
            index,
            sums: Sums::at(weights, index),
        }
    }

    // The item after this one, in constant time; the same item where this one is past the end.
    pub fn next(self) -> Item<'a>
        ensures list { result.weights.now ≡ self.entry.weights.now }
        ensures place { result.index ≡ next_index self.entry.weights.now self.entry.index }
    {
        if self.index >= self.weights.len() {
            return self;
        }
        let weight = self.weight();
        // Field by field: a struct with a proved fact takes no `..self`.
        Item {
            weights: self.weights,
            index: self.index + 1,
            sums: self.sums.map(|sums| Sums {
                before: sums.before + weight,
                ..sums
            }),
        }
    }

    // The item before this one, in constant time; the same item where this one is the first.
    pub fn previous(self) -> Item<'a>
        ensures list { result.weights.now ≡ self.entry.weights.now }
        ensures place { result.index ≡ self.entry.index - 1 }
    {
        if self.index == 0 {
            return self;
        }
        let index = self.index - 1;
        let weight = weight_at(self.weights, index);
        // As in `next`; one step for both would be told the index, the weight and whether to add it, and be no shorter.
        Item {
            weights: self.weights,
            index,
            sums: self.sums.map(|sums| Sums {
                before: sums.before - weight,
                ..sums
            }),
        }
    }

    // Whether codes have a word for it.
    #[tactic(auto, using(crate::proofs::Accepting::accepts_exact))]
    pub fn accepted(&self) -> bool
        ensures told { result ≡ accepts self.now.weights.now self.now.index }
        ensures exact { Exactly result (Weights self.now.weights.now × (self.now.index < length self.now.weights.now)) }
    {
        self.sums.is_some() && self.index < self.weights.len()
    }

    // The whole list.
    pub fn weights(&self) -> &'a [u16]
        ensures { result.now ≡ self.now.weights.now }
    {
        self.weights
    }

    pub fn index(&self) -> usize
        ensures { result ≡ self.now.index }
    {
        self.index
    }

    // Its weight; 0 where it is past the end.
    pub fn weight(&self) -> u32
        ensures { result ≡ slice_index self.now.weights.now self.now.index }
    {
        weight_at(self.weights, self.index)
    }

    // The sum of the weights before it; 0 where codes don't take the list. No option, nor in `weight` and `total`: who has asked
    // `accepted` need not ask again.
    pub fn before(&self) -> u32
        ensures { result ≡ sum_before self.now.weights.now self.now.index }
    {
        self.sums.map_or(0, |sums| sums.before)
    }

    // The sum of all weights; 0 where codes don't take the list.
    pub fn total(&self) -> u32
        ensures { result ≡ sum_of_all self.now.weights.now }
    {
        self.sums.map_or(0, |sums| sums.total)
    }
}
