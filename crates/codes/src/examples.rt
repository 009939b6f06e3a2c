// Small lists with their words.
ghost use Rattle.codes.specs.Theorems.{Table};

// The words of a few small lists, bit by bit, by both codes.
#[tactic(auto, using(crate::proofs::Shifts::gilbert_alone))]
pub fn table_stands()
    ensures { Table }
{}
