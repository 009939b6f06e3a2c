// Questions about the nodes of a host's tree that climbing answers.
ghost use Rattle.std.specs.Prelude.{◌≡◌, ℕ, ◌<◌, ◌≤◌, ◌∷◌, IfOk, MatchResult, Some, None, Ok, Err};
ghost use Rattle.std.specs.Coded.{Coded-set};
ghost use Rattle.trees.specs.FaultCode.{verdict_code};
ghost use Rattle.trees.specs.declared.climb.ClimbRefusal.TheVariants.{NoTree};
ghost use Rattle.trees.specs.Above.{depth_of, is_above};
ghost use Rattle.trees.specs.Order.{Depths, Order};
ghost use Rattle.trees.specs.Deepest.{Deepest, meet_of, meet_all};
ghost use Rattle.trees.specs.Texts.{refusal_text, assembly_text};
ghost use Rattle.trees.specs.Climbing.{first_missing, unless_missing, depth_answer, above_answer, meet_answer};

use crate::host::{Host, HostFault};
use std::fmt;

// Why there is no answer about a node.
#[derive(Clone, Copy, PartialEq, Eq, Debug)]
pub enum ClimbRefusal {
    // The host has a fault, and no tree.
    NoTree(HostFault),
    // The first of the numbers asked about that is no node of the tree.
    NoSuchNode(u16),
}

impl fmt::Display for ClimbRefusal {
    ghost output = { λ refusal. Some (refusal_text refusal) };

    fn fmt<W: fmt::Write>(&self, f: &mut fmt::Formatter<W>) -> fmt::Result {
        match self {
            ClimbRefusal::NoTree(fault) => write!(f, "fault {fault}"),
            ClimbRefusal::NoSuchNode(v) => write!(f, "no such node {v}"),
        }
    }
}

impl From<HostFault> for ClimbRefusal {
    ghost from_gives = { λ f r. r ≡ NoTree f };

    fn from(fault: HostFault) -> ClimbRefusal {
        ClimbRefusal::NoTree(fault)
    }
}

// A node that stands for all at or below it, and its depth.
#[derive(Clone, Copy, PartialEq, Eq, Debug)]
pub struct Assembly {
    pub node: u16,
    pub depth: u16,
}

impl fmt::Display for Assembly {
    ghost output = { λ assembly. Some (assembly_text assembly) };

    fn fmt<W: fmt::Write>(&self, f: &mut fmt::Formatter<W>) -> fmt::Result {
        let Assembly { node, depth } = *self;
        write!(f, "{node} depth {depth}")
    }
}

// A host that has a tree, and how many nodes the tree has.
#[derive(Drop)]
struct Climber<'a, H: Host> {
    host: &'a H,
    count: u16,
    ghost tree: { H.verdicts host.now ≡ Ok count } by { Coded-set verdict_code _ _ },
}

impl<'a, H: Host> Climber<'a, H> {
    // The climber of a host, which is asked for its verdict once.
    fn new(host: &'a H) -> Result<Climber<'a, H>, HostFault>
        ensures { MatchResult result (λ climber. climber.host.now ≡ host.now) (λ fault. H.verdicts host.now ≡ Err fault) }
    {
        let count = host.verdict()?;
        Ok(Climber { host, count })
    }

    // The first of these numbers that is no node.
    fn missing(&self, nodes: &[u16]) -> Option<u16>
        ensures { result ≡ first_missing self.now.count nodes.now }
    {
        let count = self.count;
        nodes.iter().copied().find(|v| *v >= count)
    }

    // Refuses numbers of which one is no node. A match: `map_or` would put the answer before the refusal, and is no plainer.
    fn check(&self, nodes: &[u16]) -> Result<(), ClimbRefusal>
        ensures { result ≡ unless_missing (first_missing self.now.count nodes.now) tt }
    {
        match self.missing(nodes) {
            Some(v) => Err(ClimbRefusal::NoSuchNode(v)),
            None => Ok(()),
        }
    }

    // How many steps a node is below the root. A loop, since an iterator of ancestors would serve this count alone and be longer.
    fn depth(&self, v: u16) -> u16
        ensures { result ≡ depth_of (H.parents self.now.host.now) v }
    {
        let mut at = v;
        let mut steps = 0;
        while let Some(parent) = self.host.parent(at) {
            at = parent;
            steps += 1;
        }
        steps
    }

    // Whether a is node v or stands above it: what stands above has a smaller number, so the climb stops at a or passes it.
    // A loop: `find` on an iterator of ancestors would have to ask again whether it found a or passed it.
    fn reaches(&self, a: u16, v: u16) -> bool
        ensures { result ≡ is_above (H.parents self.now.host.now) a v }
    {
        let mut node = v;
        while node > a {
            let Some(parent) = self.host.parent(node) else {
                return false;
            };
            node = parent;
        }
        node == a
    }

    // The deepest node at or above two nodes: the one with the greater number does not stand above the other, so it climbs.
    // A loop, since two nodes climb by turns.
    fn meet_two(&self, a: u16, b: u16) -> u16
        requires first { a < self.now.count }
        requires second { b < self.now.count }
        ensures same { result ≡ meet_of (H.parents self.now.host.now) a b }
        ensures node { result < self.now.count }
    {
        let mut left = a;
        let mut right = b;
        while left != right {
            if left > right {
                left = self.host.parent(left).unwrap();
            } else {
                right = self.host.parent(right).unwrap();
            }
        }
        left
    }

    // The deepest node at or above a node and others.
    fn meet(&self, first: u16, others: &[u16]) -> u16
        requires node { first < self.now.count }
        requires nodes { first_missing self.now.count others.now ≡ None }
        ensures { result ≡ meet_all (H.parents self.now.host.now) first others.now }
    {
        let further = |meet: u16, v: &u16|
            requires { (meet < self.now.count) × (v.now < self.now.count) }
        { self.meet_two(meet, *v) };
        others.iter().fold(first, further)
    }
}

// The depth of a node.
pub fn depth<H: Host>(host: &H, v: u16) -> Result<u16, ClimbRefusal>
    ensures value { result ≡ depth_answer (H.verdicts host.now) (H.parents host.now) v }
    ensures rule { (n : ℕ) → H.verdicts host.now ≡ Ok n → Depths (H.parents host.now) }
{
    let climber = Climber::new(host)?;
    climber.check(&[v])?;
    Ok(climber.depth(v))
}

// Whether node a is node v or stands above it.
pub fn is_at_or_above<H: Host>(host: &H, a: u16, v: u16) -> Result<bool, ClimbRefusal>
    ensures value { result ≡ above_answer (H.verdicts host.now) (H.parents host.now) a v }
    ensures order { (n : ℕ) → H.verdicts host.now ≡ Ok n → Order (H.parents host.now) }
{
    let climber = Climber::new(host)?;
    climber.check(&[a, v])?;
    Ok(climber.reaches(a, v))
}

// The smallest assembly that holds a node and others: the deepest node at or above all of them.
pub fn meet<H: Host>(host: &H, first: u16, others: &[u16]) -> Result<Assembly, ClimbRefusal>
    ensures value { result ≡ meet_answer (H.verdicts host.now) (H.parents host.now) first others.now }
    ensures deepest { IfOk result (λ m. Deepest (H.parents host.now) (first ∷ others.now) m.node) }
    ensures only { IfOk result (λ m. (d : ℕ) → Deepest (H.parents host.now) (first ∷ others.now) d → d ≡ m.node) }
{
    let climber = Climber::new(host)?;
    climber.check(&[first])?;
    climber.check(others)?;
    let node = climber.meet(first, others);
    let depth = climber.depth(node);
    Ok(Assembly { node, depth })
}
