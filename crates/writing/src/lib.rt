// Tags and sheets, written from the rows. This crate is internal to `sheets`: its functions are public only because that crate calls
// them, and what they require is shown there. Each function that writes asks for room for what it writes, which is another length each
// time, so no type could say it once.
#![tactic(auto)]

mod bits;
mod bytes;
pub mod layout;
pub mod sheeting;
mod tagging;
