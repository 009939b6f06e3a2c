// Why a command does not do what it is asked, and how that is printed.
use codes::code::CodeRefusal;
use formats::answers::Side;
use formats::fault::{CutRefusal, PairRefusal, TagFault};
use racks::refusal::RackRefusal;
use sheets::look::LookUpRefusal;
use sheets::press::PressRefusal;
use std::alloc::{AllocError, AllocFailed};
use std::{fmt, io};
use trees::climb::ClimbRefusal;
use trees::host::HostFault;

#[derive(Drop)]
pub enum Refusal {
    // The line is no command.
    NotUnderstood,
    // There is no present host, sheet or rack.
    NoHost,
    NoSheet,
    NoRack,
    // The present host has no tree, or its tree lacks a node.
    InTree(ClimbRefusal),
    // A file, by its name.
    CannotRead(String),
    CannotWrite(String),
    // The ticket for a place that is in hand, or is not.
    TicketInHand { place: usize },
    NoTicket { place: usize },
    NoOpenedTicket { place: usize },
    NoStartedTicket { place: usize },
    // A call of the library is refused, by its number.
    Refused { number: u8 },
    // The same of the press, with the fault of the host.
    NotPressed { number: u8, fault: HostFault },
    // The same of a query, with the side of the tag that is none.
    NoTag { number: u8, side: Side },
    // A want of memory, or of input and output.
    Failed(io::Error),
}

impl fmt::Display for Refusal {
    fn fmt<W: fmt::Write>(&self, f: &mut fmt::Formatter<W>) -> fmt::Result {
        match self {
            Refusal::NotUnderstood => write!(f, "not understood"),
            Refusal::NoHost => write!(f, "no host"),
            Refusal::NoSheet => write!(f, "no sheet"),
            Refusal::NoRack => write!(f, "no rack"),
            Refusal::InTree(refusal) => write!(f, "{refusal}"),
            Refusal::CannotRead(file) => write!(f, "cannot read {file}"),
            Refusal::CannotWrite(file) => write!(f, "cannot write {file}"),
            Refusal::TicketInHand { place } => write!(f, "a ticket for place {place} is in hand"),
            Refusal::NoTicket { place } => write!(f, "no ticket for place {place}"),
            Refusal::NoOpenedTicket { place } => write!(f, "no opened ticket for place {place}"),
            Refusal::NoStartedTicket { place } => write!(f, "no started ticket for place {place}"),
            Refusal::Refused { number } => write!(f, "refused {number}"),
            Refusal::NotPressed { number, fault } => write!(f, "refused {number} {fault}"),
            Refusal::NoTag { number, side } => write!(f, "refused {number} {side}"),
            Refusal::Failed(error) => write!(f, "failed: {error}"),
        }
    }
}

impl From<io::Error> for Refusal {
    fn from(error: io::Error) -> Refusal {
        Refusal::Failed(error)
    }
}

impl From<AllocError> for Refusal {
    fn from(error: AllocError) -> Refusal {
        Refusal::Failed(io::Error::from(error))
    }
}

impl<T: Drop> From<AllocFailed<T>> for Refusal {
    fn from(error: AllocFailed<T>) -> Refusal {
        Refusal::Failed(io::Error::from(error))
    }
}

impl From<HostFault> for Refusal {
    fn from(fault: HostFault) -> Refusal {
        Refusal::InTree(ClimbRefusal::NoTree(fault))
    }
}

impl From<ClimbRefusal> for Refusal {
    fn from(refusal: ClimbRefusal) -> Refusal {
        Refusal::InTree(refusal)
    }
}

// A number is all that is told of these. One `From` for each: one for all types that have a number would overlap the others, and a macro
// makes no impls here.
impl From<CodeRefusal> for Refusal {
    fn from(refusal: CodeRefusal) -> Refusal {
        Refusal::Refused {
            number: refusal.number(),
        }
    }
}

impl From<TagFault> for Refusal {
    fn from(fault: TagFault) -> Refusal {
        Refusal::Refused {
            number: fault.number(),
        }
    }
}

impl From<CutRefusal> for Refusal {
    fn from(refusal: CutRefusal) -> Refusal {
        Refusal::Refused {
            number: refusal.number(),
        }
    }
}

impl From<PairRefusal> for Refusal {
    fn from(refusal: PairRefusal) -> Refusal {
        let number = refusal.number();
        match refusal {
            PairRefusal::OneTag { side, fault: _ } => Refusal::NoTag { number, side },
            _ => Refusal::Refused { number },
        }
    }
}

impl From<PressRefusal> for Refusal {
    fn from(refusal: PressRefusal) -> Refusal {
        let number = refusal.number();
        match refusal {
            PressRefusal::NoTree(fault) => Refusal::NotPressed { number, fault },
            _ => Refusal::Refused { number },
        }
    }
}

impl From<LookUpRefusal> for Refusal {
    fn from(refusal: LookUpRefusal) -> Refusal {
        Refusal::Refused {
            number: refusal.number(),
        }
    }
}

impl From<RackRefusal> for Refusal {
    fn from(refusal: RackRefusal) -> Refusal {
        Refusal::Refused {
            number: refusal.number(),
        }
    }
}
