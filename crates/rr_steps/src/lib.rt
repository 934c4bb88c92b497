//! A counter of steps that costs nothing when the program runs: how much a function reads becomes a clause of its contract.
#![tactic(auto)]

mod steps;

pub use steps::Steps;
