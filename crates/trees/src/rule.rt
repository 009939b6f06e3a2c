// Trees that a rule gives.
ghost use Rattle.std.specs.Prelude.{◌≡◌, ◌≤◌, false, is_ok, None, Some};
ghost use Rattle.trees.specs.Rule.{rule_verdict, parent_by, rule_parent, shape_name};
ghost use Rattle.trees.specs.RuleLaw.{rule_tree};

use crate::host::{Host, HostFault, count_of_nodes};
use std::fmt;

#[derive(Clone, Copy, PartialEq, Eq, Debug)]
pub enum Shape {
    // Each node's parent is the node before it.
    Chain,
    // Each node's parent is the root.
    Star,
    // Nodes 2·u + 1 and 2·u + 2 are the children of node u.
    Binary,
}

impl Shape {
    // The parent of a node other than the root.
    fn parent_of(self, v: u16) -> u16
        requires { 1 ≤ v }
        ensures { result ≡ parent_by self v }
    {
        match self {
            Shape::Chain => v - 1,
            Shape::Star => 0,
            Shape::Binary => (v - 1) / 2,
        }
    }
}

impl fmt::Display for Shape {
    ghost output = { λ shape. Some (shape_name shape) };

    fn fmt<W: fmt::Write>(&self, f: &mut fmt::Formatter<W>) -> fmt::Result {
        f.write_str(match self {
            Shape::Chain => "chain",
            Shape::Star => "star",
            Shape::Binary => "binary",
        })
    }
}

// The tree of a shape with a count of nodes.
#[derive(Clone, Copy, PartialEq, Eq, Debug)]
pub struct RuleHost {
    pub shape: Shape,
    pub count: u16,
}

impl Host for RuleHost {
    ghost verdicts = { λ h. rule_verdict h.count };

    ghost parents = { λ h. rule_parent h.shape h.count };

    ghost laws = { λ h. rule_tree h.shape h.count };

    fn verdict(&self) -> Result<u16, HostFault> {
        count_of_nodes(self.count as usize, 0)
    }

    fn parent(&self, v: u16) -> Option<u16>
        ensures value { result ≡ rule_parent self.now.shape self.now.count v }
        ensures silent { is_ok (rule_verdict self.now.count) ≡ false → result ≡ None }
    {
        let count = self.verdict().ok()?;
        if v == 0 || v >= count {
            return None;
        }
        Some(self.shape.parent_of(v))
    }
}
