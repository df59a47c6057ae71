// The writer of Type 3 tags: the list of commands that puts a message on a tag.

#![tactic(auto)]

pub mod write;
