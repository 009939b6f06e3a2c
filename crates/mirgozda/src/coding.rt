// The commands on codes: they choose one, and ask for words.
ghost use Rattle.codes.specs.Gilbert.{gilbert_moore};
ghost use Rattle.codes.specs.Halves.{bisection};
ghost use Rattle.codes.specs.Laws.{gilbert_lawful, bisection_lawful};
ghost use Rattle.mirgozda.specs.declared.coding.Coding.TheVariants.{GilbertMoore, Bisection};

use crate::line::numbers_of;
use crate::refusal::Refusal;
use crate::state::State;
use codes::bisection::Bisection;
use codes::code::{Code, CodeRefusal, word_at};
use codes::gilbert_moore::GilbertMoore;
use codes::item::Item;
use codes::word::Word;
use std::fmt;
use std::io::Write;
use std::str::FromStr;

// The code that a script has chosen.
#[derive(Clone, Copy)]
pub enum Coding {
    GilbertMoore,
    Bisection,
}

impl fmt::Display for Coding {
    fn fmt<W: fmt::Write>(&self, f: &mut fmt::Formatter<W>) -> fmt::Result {
        f.write_str(match self {
            Coding::GilbertMoore => "gilbert-moore",
            Coding::Bisection => "bisection",
        })
    }
}

// The two names again, as `Display` prints them: a search over both by what they print would need memory for the print.
impl FromStr for Coding {
    type Err = Refusal;

    fn from_str(name: &str) -> Result<Coding, Refusal> {
        match name {
            "gilbert-moore" => Ok(Coding::GilbertMoore),
            "bisection" => Ok(Coding::Bisection),
            _ => Err(Refusal::NotUnderstood),
        }
    }
}

impl Code for Coding {
    ghost words = { elim [ GilbertMoore ↦ gilbert_moore | Bisection ↦ bisection ] };

    ghost laws = { elim [ GilbertMoore ↦ gilbert_lawful | Bisection ↦ bisection_lawful ] };

    fn word(&self, item: &Item) -> Result<Word, CodeRefusal> {
        match self {
            Coding::GilbertMoore => GilbertMoore.word(item),
            Coding::Bisection => Bisection.word(item),
        }
    }
}

pub fn code(state: &mut State, rest: &[&str], out: &mut Vec<u8>) -> Result<(), Refusal> {
    let [name] = rest else {
        return Err(Refusal::NotUnderstood);
    };
    let coding: Coding = name.parse()?;
    state.coding = coding;
    writeln!(out, "code: {coding}")?;
    Ok(())
}

pub fn word(state: &State, rest: &[&str], out: &mut Vec<u8>) -> Result<(), Refusal> {
    let numbers = numbers_of(state.heap, rest)?;
    let [index, weights @ ..] = numbers.as_slice() else {
        return Err(Refusal::NotUnderstood);
    };
    let Word { value, len } = word_at(&state.coding, weights, usize::from(*index))?;
    let len = usize::from(len);
    writeln!(out, "word {value:0len$b}")?;
    Ok(())
}
