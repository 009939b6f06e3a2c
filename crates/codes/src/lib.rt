// Codes that keep order: a list of weights and an index give a word of bits, and the words of a list stand in the order of its items.
#![tactic(auto)]

pub mod bisection;
pub mod code;
pub mod examples;
pub mod gilbert_moore;
pub mod item;
pub mod rows;
#[cfg(test)]
mod tests;
pub mod word;
