// The press: from a host and a code to a sheet.
ghost use Rattle.std.specs.Prelude.{◌≡◌, ℕ, ◌≤◌, length, take, IfOk, Ok, Err};
ghost use Rattle.rows.specs.Rows.{parents_in};
ghost use Rattle.sheets.specs.declared.press.PressRefusal.{PressRefusal};
ghost use Rattle.sheets.specs.declared.press.PressRefusal.TheVariants.{NoTree};
ghost use Rattle.sheets.specs.Numbers.{press_number};
ghost use Rattle.sheets.specs.Promises.{Promises};
ghost use Rattle.sheets.specs.Pressing.{measured, pressed, press_answer, press_output};

use codes::code::Code;
// How many numbers of work memory each node needs.
pub use rows::carrier::ROWS;
use rows::carrier::Rows;
use rows::filling::fill;
use rows::finished::Marks;
use trees::host::{Host, HostFault};
use writing::sheeting::{few_fields, measure, put_sheet};

// Why there is no sheet.
#[derive(Clone, Copy, PartialEq, Eq, Debug)]
pub enum PressRefusal {
    // No tree has the number 0.
    NumberZero,
    // The host has a fault, and no tree.
    NoTree(HostFault),
    // The work memory has fewer than twelve numbers for each node.
    WorkTooShort,
    // Some label has more fields than a tag can hold.
    TooManyFields,
    // The output is shorter than the sheet.
    OutputTooShort,
}

impl PressRefusal {
    // The number under which a refusal is told. One variant has a field, so none has a number of its own that `as` would give.
    pub fn number(self) -> u8
        ensures { result ≡ press_number self }
    {
        match self {
            PressRefusal::NumberZero => 1,
            PressRefusal::NoTree(_) => 2,
            PressRefusal::WorkTooShort => 3,
            PressRefusal::TooManyFields => 4,
            PressRefusal::OutputTooShort => 5,
        }
    }
}

impl From<HostFault> for PressRefusal {
    ghost from_gives = { λ f r. r ≡ NoTree f };

    fn from(fault: HostFault) -> PressRefusal {
        PressRefusal::NoTree(fault)
    }
}

// Measures the sheet, and writes it if its labels can be held and there is room.
fn finish<C: Code>(marks: &Marks<C>, number: u16, out: &mut [u8]) -> Result<usize, PressRefusal>
    ensures told { result ≡ press_answer (measured (parents_in marks.now.words.up.row.now) (C.words marks.now.words.code.now) number (length marks.now.words.up.row.now) (length out.old)) }
    ensures late { (e : PressRefusal) → result ≡ Err e → press_number e ≤ 3 → ⊥ }
    ensures written { out.new ≡ press_output (measured (parents_in marks.now.words.up.row.now) (C.words marks.now.words.code.now) number (length marks.now.words.up.row.now) (length out.old)) out.old }
{
    if !few_fields(marks) {
        return Err(PressRefusal::TooManyFields);
    }
    let needed = measure(marks);
    if out.len() < needed {
        return Err(PressRefusal::OutputTooShort);
    }
    put_sheet(marks, number, out);
    Ok(needed)
}

// Writes the sheet of the host's tree under a tree number over the front of the output, and answers its length. The work memory
// needs twelve numbers for each node; what it holds after is of no meaning, but for the first three refusals it is as it was.
pub fn press<H: Host, C: Code>(
    host: &H,
    code: &C,
    number: u16,
    work: &mut [u16],
    out: &mut [u8],
) -> Result<usize, PressRefusal>
    ensures told { result ≡ press_answer (pressed (H.parents host.now) (C.words code.now) number (H.verdicts host.now) (length work.old) (length out.old)) }
    ensures written { out.new ≡ press_output (pressed (H.parents host.now) (C.words code.now) number (H.verdicts host.now) (length work.old) (length out.old)) out.old }
    ensures found { (e : PressRefusal) → result ≡ Err e → press_number e ≤ 3 → work.new ≡ work.old }
    ensures keeps { IfOk result (λ k. (n : ℕ) → H.verdicts host.now ≡ Ok n → Promises (H.parents host.now) n (C.words code.now) number (take k out.new)) }
{
    if number == 0 {
        return Err(PressRefusal::NumberZero);
    }
    let n = host.verdict()? as usize;
    if work.len() < ROWS * n {
        return Err(PressRefusal::WorkTooShort);
    }
    let marks = fill(host, code, Rows::split(work, n));
    finish(&marks, number, out)
}
