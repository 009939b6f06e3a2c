// Sizes, heavy children and light sizes.
ghost use Rattle.std.specs.Prelude.{◌≡◌, ◌≤◌, ◌<◌, length};
ghost use Rattle.codes.specs.Weighing.{Exactly};
ghost use Rattle.rows.specs.Chains.{at};
ghost use Rattle.rows.specs.Rows.{SizeRow, HeavyRow, LightRow};

use crate::chains::link;
use crate::parents::Parents;

// A tree, and rows of the size and the heavy child of each node.
#[derive(Clone, Copy)]
pub struct Grown<'a> {
    pub up: Parents<'a>,
    pub size: &'a [u16],
    pub heavy: &'a [u16],
    pub ghost sizes: { length size.now ≡ length up.row.now },
    pub ghost heavies: { length heavy.now ≡ length up.row.now },
    pub ghost sized: { SizeRow up.row.now size.now },
    pub ghost chosen: { HeavyRow up.row.now heavy.now },
}

impl Grown<'_> {
    // Whether a node is the heavy child of its parent; the root is not.
    pub fn is_heavy(&self, v: usize) -> bool
        requires { v < length self.now.up.row.now }
        ensures { Exactly result ((1 ≤ v) × (at self.now.heavy.now (at self.now.up.row.now v) ≡ v)) }
    {
        v != 0 && self.heavy[self.up.row[v] as usize] as usize == v
    }
}

// The size of each node: itself and all below it.
#[tactic(auto, using(crate::proofs::Handing::from_all, crate::proofs::Handing::turn, crate::proofs::Handing::turn_fits))]
pub fn sizes(up: &Parents, size: &mut [u16])
    requires { length size.old ≡ length up.now.row.now }
    ensures { SizeRow up.now.row.now size.new }
{
    size.fill(1);
    // By index: a turn writes at another place than its own, and the root, with which `enumerate` would begin, has no parent.
    for v in (1..up.row.len()).rev() {
        let p = up.row[v] as usize;
        size[p] += size[v];
    }
}

// The heavy child of each node, or 0 at a leaf.
pub fn heavies(up: &Parents, size: &[u16], heavy: &mut [u16])
    requires sizes { length size.now ≡ length up.now.row.now }
    requires room { length heavy.old ≡ length up.now.row.now }
    requires sized { SizeRow up.now.row.now size.now }
    ensures { HeavyRow up.now.row.now heavy.new }
{
    heavy.fill(0);
    // By index: a turn writes at another place than its own, and the root, with which `enumerate` would begin, has no parent.
    for v in 1..up.row.len() {
        let p = up.row[v] as usize;
        if link(heavy[p]).is_none_or(|h| size[h] < size[v]) {
            heavy[p] = v as u16;
        }
    }
}

// The light size of each node.
#[tactic(auto, using(crate::proofs::Trees::heavy_up, crate::proofs::Runs::link_some))]
pub fn lights(grown: &Grown, light: &mut [u16])
    requires { length light.old ≡ length grown.now.up.row.now }
    ensures { LightRow grown.now.up.row.now light.new }
{
    // A `zip` with the rows that are read was tried: after such a loop a proof knows nothing of what was written.
    for (v, place) in light.iter_mut().enumerate() {
        let size = grown.size[v];
        // `map_or` was tried: it did not prove that its closure may subtract.
        *place = match link(grown.heavy[v]) {
            None => size,
            Some(h) => size - grown.size[h],
        };
    }
}
