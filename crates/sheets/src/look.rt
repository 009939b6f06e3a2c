// Looking up a node on a sheet.
ghost use Rattle.std.specs.Prelude.{◌≡◌, Ok, Err, MatchResult};
ghost use Rattle.sheets.specs.Numbers.{look_up_number};
ghost use Rattle.sheets.specs.LookingUp.{offset_at, look_up_answer};

use codes::word::joined;
use formats::layout::pair;
// Where the offsets of a sheet begin, and how many bytes each has.
pub use writing::layout::{OFFSET_BYTES, OFFSETS_AT};
use writing::layout::{NODES_AT, header};

// Why there is no tag.
#[derive(Clone, Copy, PartialEq, Eq, Debug)]
pub enum LookUpRefusal {
    // The bytes end before the sheet's header does.
    SheetTooShort = 6,
    // The number is no node of the sheet.
    NoSuchNode = 7,
    // The tag would begin in the header, end before it begins, or pass the end.
    BadOffsets = 8,
}

impl LookUpRefusal {
    // The number under which a refusal is told.
    pub fn number(self) -> u8
        ensures { result ≡ look_up_number self }
    {
        self as u8
    }
}

// Where the tag of a node begins.
fn offset(sheet: &[u8], v: u16) -> usize
    ensures { result ≡ offset_at sheet.now v }
{
    // By two pairs, of which a byte past the end is 0: `from_le_bytes` of a part that may not be there would be an option more.
    let at = OFFSETS_AT + OFFSET_BYTES * v as usize;
    joined(pair(sheet, at + 2), pair(sheet, at)) as usize
}

// The part of a sheet that holds the tag of a node. Any bytes may come in: what is no sheet is refused, or has some part of it
// answered, which the reader of tags then judges.
#[tactic(auto, using(crate::proofs::Looked::too_short, crate::proofs::Looked::no_node, crate::proofs::Looked::too_early))]
pub fn look_up(sheet: &[u8], v: u16) -> Result<&[u8], LookUpRefusal>
    ensures told { MatchResult result (λ part. look_up_answer sheet.now v ≡ Ok part.now) (λ refusal. look_up_answer sheet.now v ≡ Err refusal) }
{
    let nodes = pair(sheet, NODES_AT);
    let first = header(nodes);
    if sheet.len() < first {
        return Err(LookUpRefusal::SheetTooShort);
    }
    if nodes <= v {
        return Err(LookUpRefusal::NoSuchNode);
    }
    let begin = offset(sheet, v);
    if begin < first {
        return Err(LookUpRefusal::BadOffsets);
    }
    let end = offset(sheet, v + 1);
    sheet.get(begin..end).ok_or(LookUpRefusal::BadOffsets)
}
