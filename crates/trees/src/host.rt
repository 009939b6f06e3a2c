// What a tree of parts is asked, by whoever labels it.
ghost use Rattle.std.specs.Prelude.{◌≡◌, ℕ, Some, Ok, Option, Result};
ghost use Rattle.trees.specs.Tree.{Tree};
ghost use Rattle.trees.specs.Fault.{kind_number, fault_text, fault};
ghost use Rattle.trees.specs.Host.{count_verdict};
ghost use Rattle.trees.specs.declared.host.HostFault.{HostFault};

use std::fmt;

// The most nodes that a tree may have. The most that weights may come to in `codes` is the same number, as a node's weight is a count of
// nodes; neither crate stands on the other.
pub const MOST_NODES: u16 = 32_767;

// The kinds of fault.
#[derive(Clone, Copy, PartialEq, Eq, Debug)]
pub enum FaultKind {
    // There is no node.
    Empty,
    // There are more nodes than a tree may have.
    TooMany,
    // The first level of a list is not 0.
    FirstLevel,
    // A later level is 0, or above the level before by more than one.
    Level,
    // A kind of somebody else's host, by its number.
    Other(u16),
}

impl FaultKind {
    // The number that a kind is known by.
    pub fn number(self) -> u16
        ensures { result ≡ kind_number self }
    {
        match self {
            FaultKind::Empty => 1,
            FaultKind::TooMany => 2,
            FaultKind::FirstLevel => 7,
            FaultKind::Level => 8,
            FaultKind::Other(number) => number,
        }
    }

    // The fault of this kind at a place.
    pub fn at(self, place: usize) -> HostFault
        ensures { result ≡ fault self place }
    {
        HostFault { kind: self, place }
    }
}

// Why a host has no tree: which rule is broken, and where.
#[derive(Clone, Copy, PartialEq, Eq, Debug)]
pub struct HostFault {
    pub kind: FaultKind,
    pub place: usize,
}

// A count of nodes, where a tree may have so many, or else its fault: too many are told at a place that the host chooses.
pub(crate) fn count_of_nodes(count: usize, place: usize) -> Result<u16, HostFault>
    ensures { result ≡ count_verdict count place }
{
    match u16::try_from(count) {
        Ok(0) => Err(FaultKind::Empty.at(0)),
        Ok(nodes) if nodes <= MOST_NODES => Ok(nodes),
        _ => Err(FaultKind::TooMany.at(place)),
    }
}

impl fmt::Display for HostFault {
    ghost output = { λ fault. Some (fault_text fault) };

    fn fmt<W: fmt::Write>(&self, f: &mut fmt::Formatter<W>) -> fmt::Result {
        let kind = self.kind.number();
        let place = self.place;
        write!(f, "kind {kind} place {place}")
    }
}

// A host answers for one tree: whether there is one, and who is whose parent. Neither question changes it.
pub trait Host {
    // The verdict: how many nodes the tree has, or a fault.
    ghost verdicts: { Self → Result ℕ HostFault };

    // The parent of each number, none where it has no parent.
    ghost parents: { Self → ℕ → Option ℕ };

    // The law of a host: where its verdict is a count, its answers are a tree of that many nodes.
    ghost laws: { (h : Self) (n : ℕ) → verdicts h ≡ Ok n → Tree (parents h) n };

    fn verdict(&self) -> Result<u16, HostFault>
        ensures { result ≡ verdicts self.now };

    fn parent(&self, v: u16) -> Option<u16>
        ensures { result ≡ parents self.now v };
}
