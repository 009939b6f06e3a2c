// All rows, one phase after the other.
ghost use Rattle.std.specs.Prelude.{◌≡◌, length, Ok};
ghost use Rattle.rows.specs.Rows.{parents_in};

use crate::carrier::Rows;
use crate::chains::Desk;
use crate::finished::{Marks, TreeWords, Words};
use crate::growth::{Grown, heavies, lights, sizes};
use crate::marks::{counts, depths, tops};
use crate::parents::gather;
use crate::words::{Linked, Weighed, branch_words, link_light, path_words};
use codes::code::Code;
use std::mem;
use trees::host::Host;

// Depths, body bits and field counts.
fn fill_marks<'a, C: Code>(
    words: TreeWords<'a, C>,
    depth: &'a mut [u16],
    bits: &'a mut [u16],
    fields: &'a mut [u16],
) -> Marks<'a, C>
    requires deep { length depth.old ≡ length words.up.row.now }
    requires bitses { length bits.old ≡ length words.up.row.now }
    requires fieldses { length fields.old ≡ length words.up.row.now }
    ensures code { result.words.code.now ≡ words.entry.code.now }
    ensures up { result.words.up.row.now ≡ words.entry.up.row.now }
{
    let up = words.up;
    depths(&up, depth);
    counts(&words, bits, fields);
    Marks {
        words,
        depth,
        bits,
        fields,
    }
}

// Fills the rows for the host's tree under a code. What is done with is written over: the row of light sizes becomes that of the first
// links and then that of the path tops, and the rows of links, of a list and of sizes become those of depths, body bits and field counts.
pub fn fill<'a, H: Host, C: Code>(host: &H, code: &'a C, rows: Rows<'a>) -> Marks<'a, C>
    requires tree { H.verdicts host.now ≡ Ok (length rows.parent.now) }
    ensures same { result.words.code.now ≡ code.now }
    ensures many { length result.words.up.row.now ≡ length rows.entry.parent.now }
    ensures held { parents_in result.words.up.row.now ≡ H.parents host.now }
{
    let Rows {
        parent,
        size,
        heavy,
        light,
        next,
        list,
        path,
        branch,
    } = rows;
    let up = gather(host, parent);
    sizes(&up, size);
    heavies(&up, size, heavy);
    let grown = Grown { up, size, heavy };
    lights(&grown, light);
    let mut desk = Desk { list, words: path };
    path_words(code, &Weighed { grown, light }, &mut desk);
    let path = mem::replace(&mut desk.words, branch);
    link_light(&grown, light, next);
    let linked = Linked {
        grown,
        first: light,
        next,
    };
    branch_words(code, &linked, &mut desk);
    let Desk {
        list,
        words: branch,
    } = desk;
    tops(&grown, light);
    let words = TreeWords {
        code,
        up,
        top: light,
        path: Words::of(path),
        branch: Words::of(branch),
    };
    fill_marks(words, next, list, size)
}
