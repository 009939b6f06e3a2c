// The rack as mathematics: its calls and their answers, and what holds of them over every list of calls.
#![tactic(auto)]

pub mod theorems;
