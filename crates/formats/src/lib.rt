// The format of tags: its limits and places, and as mathematics what a tag says, its bytes, and what two tags say of each other.
#![tactic(auto)]

pub mod answers;
pub mod fault;
pub mod layout;
pub mod limits;
pub mod theorems;
