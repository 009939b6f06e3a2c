// Path words and branch words.
ghost use Rattle.std.specs.Prelude.{◌≡◌, length};
ghost use Rattle.rows.specs.Chains.{Rising};
ghost use Rattle.rows.specs.Rows.{LightRow, PathRows, LightLinks, BranchRows};

use crate::chains::{Chains, Desk, code_chain, link};
use crate::growth::Grown;
use codes::code::Code;

// A tree with the light size of each node.
#[derive(Clone, Copy)]
pub struct Weighed<'a> {
    pub grown: Grown<'a>,
    pub light: &'a [u16],
    pub ghost lights: { length light.now ≡ length grown.up.row.now },
    pub ghost weighed: { LightRow grown.up.row.now light.now },
}

// A tree with links along the light children of each node, in rising number: to the first of them, and from each to the next.
#[derive(Clone, Copy)]
pub struct Linked<'a> {
    pub grown: Grown<'a>,
    pub first: &'a [u16],
    pub next: &'a [u16],
    pub ghost firsts: { length first.now ≡ length grown.up.row.now },
    pub ghost nexts: { length next.now ≡ length grown.up.row.now },
    pub ghost rising: { Rising next.now },
    pub ghost linked: { LightLinks grown.up.row.now first.now next.now },
}

// The path word of each node.
#[tactic(auto, using(crate::proofs::Trees::heavy_rising))]
pub fn path_words<C: Code>(code: &C, tree: &Weighed, desk: &mut Desk)
    requires { length desk.old.list.now ≡ length tree.now.grown.up.row.now }
    ensures paths { PathRows (C.words code.now) tree.now.grown.up.row.now desk.new.words.high.now desk.new.words.low.now desk.new.words.len.now }
    ensures room { length desk.new.list.now ≡ length tree.now.grown.up.row.now }
{
    let grown = &tree.grown;
    let paths = Chains {
        next: grown.heavy,
        weight: tree.light,
    };
    // By number, which is all that a turn passes on. It is a loop of its own beside that of `branch_words`: one function over the nodes
    // where chains begin would have to ask what is known of them in either case.
    for t in 0..grown.up.row.len() {
        // A node that is no heavy child begins a path.
        if !grown.is_heavy(t) {
            code_chain(code, &paths, t, desk);
        }
    }
}

// The branch word of each light child.
pub fn branch_words<C: Code>(code: &C, tree: &Linked, desk: &mut Desk)
    requires { length desk.old.list.now ≡ length tree.now.grown.up.row.now }
    ensures branches { BranchRows (C.words code.now) tree.now.grown.up.row.now desk.new.words.high.now desk.new.words.low.now desk.new.words.len.now }
    ensures room { length desk.new.list.now ≡ length tree.now.grown.up.row.now }
{
    let lists = Chains {
        next: tree.next,
        weight: tree.grown.size,
    };
    for number in tree.first {
        if let Some(c) = link(*number) {
            code_chain(code, &lists, c, desk);
        }
    }
}

// Links the light children of each node in rising number.
pub fn link_light(grown: &Grown, first: &mut [u16], next: &mut [u16])
    requires firsts { length first.old ≡ length grown.now.up.row.now }
    requires nexts { length next.old ≡ length grown.now.up.row.now }
    ensures rising { Rising next.new }
    ensures linked { LightLinks grown.now.up.row.now first.new next.new }
{
    first.fill(0);
    next.fill(0);
    // By index: a turn writes at another place than its own, and the root, with which `enumerate` would begin, has no parent.
    for v in (1..grown.up.row.len()).rev() {
        if !grown.is_heavy(v) {
            let p = grown.up.row[v] as usize;
            next[v] = first[p];
            first[p] = v as u16;
        }
    }
}
