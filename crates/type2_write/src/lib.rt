// The writer of Type 2 tags: the list of commands that puts a message on a tag.

#![tactic(auto)]

mod blocks;
pub mod write;
