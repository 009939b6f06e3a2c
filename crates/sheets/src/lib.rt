// Sheets: the press writes the tags of a whole tree, and look-up finds one of them.
#![tactic(auto)]

pub mod look;
pub mod press;
#[cfg(test)]
mod tests;
