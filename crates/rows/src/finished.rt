// The rows that tags are written from.
ghost use Rattle.std.specs.Prelude.{◌≡◌, ⊤, length};
ghost use Rattle.rows.specs.Chains.{Wide};
ghost use Rattle.rows.specs.Rows.{PathRows, BranchRows, TopRow, DepthRow, BitsRow, FieldsRow};

use crate::parents::Parents;
use codes::code::Code;
use codes::rows::WordRows;
use std::alloc::AllocError;

// Rows that words were put in, to be read: the high and the low 16 bits of each value, and its length.
#[derive(Clone, Copy)]
pub struct Words<'a> {
    pub high: &'a [u16],
    pub low: &'a [u16],
    pub len: &'a [u16],
}

impl<'a> Words<'a> {
    // Lends rows that are written no more.
    pub(crate) fn of(rows: WordRows<'a>) -> Words<'a>
        ensures high { result.high.now ≡ rows.entry.high.now }
        ensures low { result.low.now ≡ rows.entry.low.now }
        ensures len { result.len.now ≡ rows.entry.len.now }
    {
        let WordRows { high, low, len } = rows;
        Words { high, low, len }
    }
}

// The path tops of a tree, and its words under a code: the path word of each node, and the branch word of each light child.
pub struct TreeWords<'a, C: Code> {
    pub code: &'a C,
    pub up: Parents<'a>,
    pub top: &'a [u16],
    pub path: Words<'a>,
    pub branch: Words<'a>,
    pub ghost tops: { length top.now ≡ length up.row.now },
    pub ghost wide_paths: { Wide (length up.row.now) path.high.now path.low.now path.len.now },
    pub ghost wide_branches: { Wide (length up.row.now) branch.high.now branch.low.now branch.len.now },
    pub ghost topped: { TopRow up.row.now top.now },
    pub ghost paths: { PathRows (C.words code.now) up.row.now path.high.now path.low.now path.len.now },
    pub ghost branches: { BranchRows (C.words code.now) up.row.now branch.high.now branch.low.now branch.len.now },
}

impl<C: Code> Copy for TreeWords<'_, C> {}

// By hand: a derive would ask that the code can be copied, which is only lent.
impl<'a, C: Code> Clone for TreeWords<'a, C> {
    ghost is_clone = { λ x y. y ≡ x };

    ghost is_infallible = { λ _. ⊤ };

    fn clone(&self) -> Result<TreeWords<'a, C>, AllocError> {
        Ok(*self)
    }
}

// The rows that tags are written from, under a code: a tree's words, and for each node its depth and how many bits and fields its label has.
pub struct Marks<'a, C: Code> {
    pub words: TreeWords<'a, C>,
    pub depth: &'a [u16],
    pub bits: &'a [u16],
    pub fields: &'a [u16],
    pub ghost depths: { length depth.now ≡ length words.up.row.now },
    pub ghost bitses: { length bits.now ≡ length words.up.row.now },
    pub ghost fieldses: { length fields.now ≡ length words.up.row.now },
    pub ghost deep: { DepthRow words.up.row.now depth.now },
    pub ghost counted: { BitsRow (C.words words.code.now) words.up.row.now bits.now },
    pub ghost numbered: { FieldsRow (C.words words.code.now) words.up.row.now fields.now },
}

impl<C: Code> Copy for Marks<'_, C> {}

// By hand: a derive would ask that the code can be copied, which is only lent.
impl<'a, C: Code> Clone for Marks<'a, C> {
    ghost is_clone = { λ x y. y ≡ x };

    ghost is_infallible = { λ _. ⊤ };

    fn clone(&self) -> Result<Marks<'a, C>, AllocError> {
        Ok(*self)
    }
}
