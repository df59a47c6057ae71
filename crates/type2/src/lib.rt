// Type 2 tags: the capability container, reading, the commands and the model. Writing and judging have their own crates.

#![tactic(auto)]

pub mod commands;
pub mod container;
pub mod model;
pub mod read;

use tag::Block;

// A write command: the block and its four bytes.
#[derive(Clone, Copy, Debug, PartialEq, Eq)]
pub struct Command {
    pub block: Block,
    pub bytes: [u8; container::BLOCK_SIZE],
}
