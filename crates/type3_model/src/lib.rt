// A Type 3 tag as a model, and what a command stores in it.

#![tactic(auto)]

pub mod model;
mod stores;
