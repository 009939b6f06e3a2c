// Why a call is refused.
ghost use Rattle.std.specs.Prelude.{◌≡◌};
ghost use Rattle.histories.specs.Model.{refusal_number};
ghost use Rattle.racks.specs.Refusals.{refused_pair};
ghost use Rattle.racks.specs.Views.{refusal_of};
ghost use Rattle.racks.specs.declared.refusal.RackRefusal.TheVariants.{InTag};

use formats::fault::{PairRefusal, TagFault};

#[derive(Clone, Copy, Debug, PartialEq, Eq)]
pub enum RackRefusal {
    // There are places 0 to 15.
    NoSuchPlace,
    // The place to open is not empty.
    NotEmpty,
    // The ticket is of another rack, or the place is not in the state that it names.
    DoesNotFit,
    // A place to compare is not started.
    NotStarted,
    // The bytes are no tag.
    InTag { fault: TagFault },
    // The tag is of another tree number than the rack.
    OtherTree,
    // The tag and the held one, or the two held ones, cannot be of one tree.
    NotOneTree,
    // The output is too short for the held tag.
    ShortOutput,
}

// A refusal that hands back the ticket that the call took.
pub struct Refused<K> {
    pub why: RackRefusal,
    pub ticket: K,
}

// Bytes that are no tag.
impl From<TagFault> for RackRefusal {
    ghost from_gives = { λ fault e. e ≡ InTag fault };

    fn from(fault: TagFault) -> RackRefusal {
        RackRefusal::InTag { fault }
    }
}

// A query on a held tag and one more, or on two held tags.
impl From<PairRefusal> for RackRefusal {
    ghost from_gives = { λ why e. e ≡ refused_pair why };

    fn from(why: PairRefusal) -> RackRefusal {
        match why {
            PairRefusal::OneTag { side: _, fault } => RackRefusal::InTag { fault },
            PairRefusal::TreeNumbers => RackRefusal::OtherTree,
            PairRefusal::NotOneTree => RackRefusal::NotOneTree,
        }
    }
}

impl RackRefusal {
    // A match, since a carried fault has a number of its own; 20, 21 and 23 are the numbers of the same refusals of tags.
    pub fn number(&self) -> u8
        ensures { result ≡ refusal_number (refusal_of self.now) }
    {
        match self {
            RackRefusal::NoSuchPlace => 9,
            RackRefusal::NotEmpty => 10,
            RackRefusal::DoesNotFit => 11,
            RackRefusal::NotStarted => 12,
            RackRefusal::InTag { fault } => fault.number(),
            RackRefusal::OtherTree => 20,
            RackRefusal::NotOneTree => 21,
            RackRefusal::ShortOutput => 23,
        }
    }
}
