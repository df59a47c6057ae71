// Type 3 tags: the attribute information block, reading, protected bytes, and the refusals of writing. Commands, writing and
// judging are in other crates.

#![tactic(auto)]

pub mod kept;
pub mod read;
pub mod space;
