// What the queries on two tags answer, and how each answer is printed.
ghost use Rattle.std.specs.Prelude.{Some};
ghost use Rattle.formats.specs.Texts.{difference_text, side_text, part_text, relation_text, related_text};

use std::fmt;

// Where two tags first differ.
#[derive(Clone, Copy, Debug, PartialEq, Eq)]
pub enum Difference {
    Same,
    FirstEnded,
    SecondEnded,
    // The field number, and the first differing bit counted from that field's start.
    At { field: usize, bit: usize },
}

impl fmt::Display for Difference {
    ghost output = { λ d. Some (difference_text d) };

    fn fmt<W: fmt::Write>(&self, f: &mut fmt::Formatter<W>) -> fmt::Result {
        match self {
            Difference::Same => f.write_str("same"),
            Difference::FirstEnded => f.write_str("first ended"),
            Difference::SecondEnded => f.write_str("second ended"),
            Difference::At { field, bit } => write!(f, "field {field} bit {bit}"),
        }
    }
}

#[derive(Clone, Copy, Debug, PartialEq, Eq)]
pub enum Side {
    First,
    Second,
}

impl Side {
    ghost use Rattle.std.specs.Prelude.{◌≡◌};
    ghost use Rattle.formats.specs.Pairs.{side_of};

    // Of one thing for each side, the one for this side.
    pub fn of<T: Copy>(self, first: T, second: T) -> T
        ensures { result ≡ side_of self first second }
    {
        match self {
            Side::First => first,
            Side::Second => second,
        }
    }
}

impl fmt::Display for Side {
    ghost output = { λ s. Some (side_text s) };

    fn fmt<W: fmt::Write>(&self, f: &mut fmt::Formatter<W>) -> fmt::Result {
        f.write_str(match self {
            Side::First => "first",
            Side::Second => "second",
        })
    }
}

// The first `fields` fields of one of two tags.
#[derive(Clone, Copy, Debug, PartialEq, Eq)]
pub struct Part {
    pub side: Side,
    pub fields: usize,
}

impl fmt::Display for Part {
    ghost output = { λ p. Some (part_text p) };

    fn fmt<W: fmt::Write>(&self, f: &mut fmt::Formatter<W>) -> fmt::Result {
        let Part { side, fields } = *self;
        write!(f, "{side} {fields} fields")
    }
}

// How the nodes of two tags stand to each other.
#[derive(Clone, Copy, Debug, PartialEq, Eq)]
pub enum Relation {
    Same,
    FirstAbove,
    SecondAbove,
    Apart,
}

impl fmt::Display for Relation {
    ghost output = { λ r. Some (relation_text r) };

    fn fmt<W: fmt::Write>(&self, f: &mut fmt::Formatter<W>) -> fmt::Result {
        f.write_str(match self {
            Relation::Same => "same",
            Relation::FirstAbove => "first above",
            Relation::SecondAbove => "second above",
            Relation::Apart => "apart",
        })
    }
}

// `deeper` is the second depth minus the first; `steps` is the way from one node to the other.
#[derive(Clone, Copy, Debug, PartialEq, Eq)]
pub struct Related {
    pub relation: Relation,
    pub deeper: i32,
    pub steps: u32,
}

impl fmt::Display for Related {
    ghost output = { λ r. Some (related_text r) };

    fn fmt<W: fmt::Write>(&self, f: &mut fmt::Formatter<W>) -> fmt::Result {
        let Related {
            relation,
            deeper,
            steps,
        } = *self;
        write!(f, "{relation} difference {deeper} steps {steps}")
    }
}
