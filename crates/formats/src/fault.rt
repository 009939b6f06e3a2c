// The refusals, with their numbers.
ghost use Rattle.std.specs.Prelude.{◌≡◌};
ghost use Rattle.formats.specs.Numbers.{number_of, pair_number_of, cut_number_of};

use crate::answers::Side;

// Why bytes are no tag; each fault has its number.
#[derive(Clone, Copy, Debug, PartialEq, Eq)]
pub enum TagFault {
    // Fewer than 3 bytes, or tree number 0.
    Number = 13,
    // The count of fields is even or above 63.
    Count = 14,
    // Too short for its ends and depths.
    Head = 15,
    // An end is not above the one before it, or by more than 32, or is above 1,024.
    End = 16,
    // A depth is not above the one before it, or is above 32,766.
    Depth = 17,
    // The length is wrong.
    Length = 18,
    // An unused body bit is 1.
    Spare = 19,
}

// Why a query on two tags has no answer.
#[derive(Clone, Copy, Debug, PartialEq, Eq)]
pub enum PairRefusal {
    // The bytes on that side are no tag.
    OneTag { side: Side, fault: TagFault },
    // The tree numbers differ.
    TreeNumbers,
    // The two cannot be of one tree.
    NotOneTree,
}

// Why a tag is not cut.
#[derive(Clone, Copy, Debug, PartialEq, Eq)]
pub enum CutRefusal {
    // The bytes are no tag.
    InTag { fault: TagFault },
    // The number of fields is even or above the tag's.
    Fields,
    // The output is too short.
    Room,
}

impl TagFault {
    pub fn number(&self) -> u8
        ensures { result ≡ number_of self.now }
    {
        *self as u8
    }
}

impl PairRefusal {
    pub fn number(&self) -> u8
        ensures { result ≡ pair_number_of self.now }
    {
        // A match, since a variant that carries a fault can have no number of its own.
        match self {
            PairRefusal::OneTag { side: _, fault } => fault.number(),
            PairRefusal::TreeNumbers => 20,
            PairRefusal::NotOneTree => 21,
        }
    }
}

impl From<TagFault> for CutRefusal {
    ghost use Rattle.formats.specs.declared.fault.CutRefusal.TheVariants.{InTag};

    ghost from_gives = { λ fault refusal. refusal ≡ InTag fault };

    fn from(fault: TagFault) -> CutRefusal {
        CutRefusal::InTag { fault }
    }
}

impl CutRefusal {
    pub fn number(&self) -> u8
        ensures { result ≡ cut_number_of self.now }
    {
        // A match, as above.
        match self {
            CutRefusal::InTag { fault } => fault.number(),
            CutRefusal::Fields => 22,
            CutRefusal::Room => 23,
        }
    }
}
