// The rows that tags are written from: path top, depth, body bits and field count.
ghost use Rattle.std.specs.Prelude.{◌≡◌, length};
ghost use Rattle.rows.specs.Rows.{TopRow, DepthRow, BitsRow, FieldsRow};

use crate::finished::TreeWords;
use crate::growth::Grown;
use crate::parents::Parents;
use codes::code::Code;

// The first node of each node's path.
pub fn tops(grown: &Grown, top: &mut [u16])
    requires { length top.old ≡ length grown.now.up.row.now }
    ensures { TopRow grown.now.up.row.now top.new }
{
    // The row is written by index, since a turn reads another place of it.
    for (v, p) in grown.up.row.iter().enumerate() {
        top[v] = if grown.is_heavy(v) {
            top[*p as usize]
        } else {
            v as u16
        };
    }
}

// The depth of each node.
#[tactic(auto, using(crate::proofs::Labelled::depth_low))]
pub fn depths(up: &Parents, depth: &mut [u16])
    requires { length depth.old ≡ length up.now.row.now }
    ensures { DepthRow up.now.row.now depth.new }
{
    // The row is written by index, since a turn reads another place of it.
    for (v, p) in up.row.iter().enumerate() {
        depth[v] = if v == 0 { 0 } else { depth[*p as usize] + 1 };
    }
}

// How many bits and how many fields each node's label has.
#[tactic(auto, using(crate::proofs::Labelled::top_in))]
pub fn counts<C: Code>(words: &TreeWords<C>, bits: &mut [u16], fields: &mut [u16])
    requires bitses { length bits.old ≡ length words.now.up.row.now }
    requires fieldses { length fields.old ≡ length words.now.up.row.now }
    ensures counted { BitsRow (C.words words.now.code.now) words.now.up.row.now bits.new }
    ensures numbered { FieldsRow (C.words words.now.code.now) words.now.up.row.now fields.new }
{
    // The rows are written by index, since a turn reads another place of them.
    for (v, t) in words.top.iter().enumerate() {
        let t = *t as usize;
        // 0 is the root here, the top of its own path, and not a mark for none.
        if t == 0 {
            bits[v] = words.path.len[v];
            fields[v] = 1;
        } else {
            let p = words.up.row[t] as usize;
            bits[v] = bits[p] + words.branch.len[t] + words.path.len[v];
            fields[v] = fields[p] + 2;
        }
    }
}
