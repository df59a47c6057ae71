// Type 6 tags: the container, reading, protected bytes, the refusals of writing, the commands and the model. Writing and judging have
// their own crates.

#![tactic(auto)]

pub mod commands;
pub mod container;
pub mod kept;
pub mod model;
pub mod read;
pub mod space;

use tag::Block;

// A write command: the block, and its bytes at the front of the array. Only as many as a block has are used.
// The array stays as C has it, and demand 2 (codec6 of demands/specs/Code2.antt) speaks of it.
#[derive(Clone, Copy, Debug, PartialEq, Eq)]
pub struct Command {
    pub block: Block,
    pub bytes: [u8; container::LARGEST_BLOCK],
}
