// A tree given by the levels of an indented parts list: line v is node v.
ghost use Rattle.std.specs.Prelude.{◌≡◌, ◌+◌, ◌-◌, ◌<◌, ◌||◌, false, length, is_ok, None, ◌==◌, nat_lt, slice_index};
ghost use Rattle.std.specs.Coded.{Coded-set};
ghost use Rattle.trees.specs.Indented.{indented_verdict, indented_parent, nearest, first_misplaced};
ghost use Rattle.trees.specs.IndentedLaw.{indented_tree};

use crate::host::{FaultKind, Host, HostFault, MOST_NODES, count_of_nodes};

// The levels of a parts list, one to a line, and the verdict on them.
#[derive(Clone, Copy)]
pub struct IndentedHost<'a> {
    levels: &'a [u16],
    verdict: Result<u16, HostFault>,
    ghost judged: { verdict ≡ indented_verdict levels.now } by { Coded-set verdict-code _ _ },
}

impl<'a> IndentedHost<'a> {
    // The host of these levels, which are looked through once.
    pub fn new(levels: &'a [u16]) -> IndentedHost<'a>
        ensures { result.levels.now ≡ levels.now }
    {
        let verdict = judge(levels);
        IndentedHost { levels, verdict }
    }
}

// Whether a level that is not the first is 0, or above the level before it by more than one.
fn is_misplaced(before: u16, level: u16) -> bool
    ensures { result ≡ (level == 0 || nat_lt (before + 1) level) }
{
    level == 0 || level as u32 > before as u32 + 1
}

// The first line with such a level.
fn misplaced_line(levels: &[u16]) -> Option<usize>
    ensures { result ≡ first_misplaced levels.now (length levels.now - 1) }
{
    let before = levels
        .array_windows::<2>()
        .position(|[before, level]| is_misplaced(*before, *level))?;
    Some(before + 1)
}

// The verdict on the levels of a list, in one pass.
fn judge(levels: &[u16]) -> Result<u16, HostFault>
    ensures { result ≡ indented_verdict levels.now }
{
    let count = count_of_nodes(levels.len(), MOST_NODES as usize)?;
    if levels[0] != 0 {
        return Err(FaultKind::FirstLevel.at(0));
    }
    // A match: `map_or` would put the count before the fault, and is no plainer.
    match misplaced_line(levels) {
        Some(v) => Err(FaultKind::Level.at(v)),
        None => Ok(count),
    }
}

// The last line before line v whose level is one less.
fn line_above(levels: &[u16], v: u16) -> Option<u16>
    requires { v < length levels.now }
    ensures { result ≡ nearest levels.now (slice_index levels.now v) v }
{
    let wanted = levels[v as usize] as u32;
    let above = levels[..v as usize]
        .iter()
        .rposition(|level| *level as u32 + 1 == wanted)?;
    Some(above as u16)
}

impl<'a> Host for IndentedHost<'a> {
    ghost verdicts = { λ h. indented_verdict h.levels.now };

    ghost parents = { λ h. indented_parent h.levels.now };

    ghost laws = { λ h. indented_tree h.levels.now };

    fn verdict(&self) -> Result<u16, HostFault> {
        self.verdict
    }

    fn parent(&self, v: u16) -> Option<u16>
        ensures value { result ≡ indented_parent self.now.levels.now v }
        ensures silent { is_ok (indented_verdict self.now.levels.now) ≡ false → result ≡ None }
    {
        let count = self.verdict.ok()?;
        if v >= count {
            return None;
        }
        line_above(self.levels, v)
    }
}
