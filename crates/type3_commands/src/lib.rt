// The write command of Type 3 tags: its block list and its codec.

#![tactic(auto)]

pub mod block_list;
pub mod commands;
pub mod listed;

use tag::Block;

// A write command. Its first `count` blocks are used, with sixteen bytes for each. The count and the arrays stay as C has them:
// `encode` answers for any count, and demand 2 (`codec3` of demands/specs/Code2.antt) speaks of the arrays.
#[derive(Clone, Copy, Debug, PartialEq, Eq)]
pub struct Command {
    pub count: usize,
    pub blocks: [Block; commands::MOST_BLOCKS],
    pub bytes: [u8; commands::MOST_BYTES],
}
