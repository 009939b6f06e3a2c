// The labels of a tree's nodes, as mathematics: what they are, and what holds of them for every tree and every lawful code.
#![tactic(auto)]

pub mod theorems;
