// Tags: the reader, fields, cut, and the queries on two tags.
#![tactic(auto)]

pub mod cut;
pub mod field;
mod layout;
pub mod limits;
mod pair;
pub mod queries;
pub mod tag;
#[cfg(test)]
mod tests;
mod words;
