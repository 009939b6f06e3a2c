// The rack: sixteen places, the tickets to them, and the calls, each pinned to the model of `histories`.
#![tactic(auto)]

mod held;
mod place;
pub mod rack;
pub mod refusal;
mod stage;
#[cfg(test)]
mod tests;
pub mod ticket;
