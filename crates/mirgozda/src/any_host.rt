// The present host of a script, whichever it is.
ghost use Rattle.trees.specs.IndentedLaw.{indented_tree};
ghost use Rattle.trees.specs.RuleLaw.{rule_tree};
ghost use Rattle.mirgozda.specs.declared.any_host.AnyHost.TheVariants.{Indented, Rule};

use trees::host::{Host, HostFault};
use trees::indented::IndentedHost;
use trees::rule::RuleHost;

// What the present host was made from.
#[derive(Drop)]
pub enum Source {
    Levels(Vec<u16>),
    Rule(RuleHost),
}

impl Source {
    // The host that answers for it. Levels are looked through once, here.
    pub fn host(&self) -> AnyHost<'_> {
        match self {
            Source::Levels(levels) => AnyHost::Indented(IndentedHost::new(levels.as_slice())),
            Source::Rule(rule) => AnyHost::Rule(*rule),
        }
    }
}

// A host of one kind or the other.
#[derive(Clone, Copy)]
pub enum AnyHost<'a> {
    Indented(IndentedHost<'a>),
    Rule(RuleHost),
}

impl<'a> Host for AnyHost<'a> {
    ghost verdicts = { elim [ Indented h ↦ ⟦<IndentedHost<'a> as Host>⟧.verdicts h | Rule h ↦ ⟦<RuleHost as Host>⟧.verdicts h ] };

    ghost parents = { elim [ Indented h ↦ ⟦<IndentedHost<'a> as Host>⟧.parents h | Rule h ↦ ⟦<RuleHost as Host>⟧.parents h ] };

    ghost laws = { elim [ Indented h ↦ indented_tree h.levels.now | Rule h ↦ rule_tree h.shape h.count ] };

    fn verdict(&self) -> Result<u16, HostFault> {
        match self {
            AnyHost::Indented(host) => host.verdict(),
            AnyHost::Rule(host) => host.verdict(),
        }
    }

    fn parent(&self, v: u16) -> Option<u16> {
        match self {
            AnyHost::Indented(host) => host.parent(v),
            AnyHost::Rule(host) => host.parent(v),
        }
    }
}
