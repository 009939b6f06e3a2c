// The queries on two tags, over their bytes.
ghost use Rattle.std.specs.Prelude.{◌≡◌, IfOk};
ghost use Rattle.formats.specs.Models.{label_of};
ghost use Rattle.formats.specs.Queries.{difference_answer, cover_answer, relate_answer};
ghost use Rattle.formats.specs.Theorems.{Shared, Exact};

use crate::pair::Pair;
use formats::answers::{Difference, Part, Related};
use formats::fault::PairRefusal;

// Where two tags first differ.
pub fn difference(first: &[u8], second: &[u8]) -> Result<Difference, PairRefusal>
    ensures { result ≡ difference_answer first.now second.now }
{
    Ok(Pair::read(first, second)?.difference())
}

// What two tags share: that many fields of that side, which `cut` writes as a tag.
pub fn cover(first: &[u8], second: &[u8]) -> Result<Part, PairRefusal>
    ensures answer { result ≡ cover_answer first.now second.now }
    ensures shared { IfOk result (λ p. Shared (label_of first.now) (label_of second.now) p) }
{
    Ok(Pair::read(first, second)?.cover())
}

// How the nodes of two tags stand to each other, how much deeper the second is, and the steps between them.
pub fn relate(first: &[u8], second: &[u8]) -> Result<Related, PairRefusal>
    ensures answer { result ≡ relate_answer first.now second.now }
    ensures exact { IfOk result (λ q. Exact (label_of first.now) (label_of second.now) q) }
{
    Ok(Pair::read(first, second)?.relate())
}
