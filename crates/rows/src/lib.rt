// The rows of the press, each filled from those before it. This crate is internal to `sheets`: its functions are public only because
// that crate calls them, and what they require is shown there. A row to be filled comes as plain numbers of the work memory, so each
// function that fills one asks for its length; a type for that would be made anew for each row and say no more.
#![tactic(auto)]

pub mod carrier;
mod chains;
pub mod filling;
pub mod finished;
mod growth;
mod marks;
pub mod parents;
mod words;
