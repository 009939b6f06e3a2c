// Trees of parts and the hosts that answer for them.
#![tactic(auto)]

pub mod climb;
pub mod host;
pub mod indented;
pub mod rule;
#[cfg(test)]
mod tests;
