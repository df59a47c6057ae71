// A tag and its commands as plain values, for a caller that has no type of its own for them.

ghost use Rattle.one_block_write.specs.Views.Listing.{Listed};

use crate::BlockUpdate;
use tag::Block;

// A command is the bytes of `front`, the block's number, and the `size` bytes of the block. The guard block is shut with the bytes of
// `shut`, unless it is shut `already`.
#[derive(Clone, Copy, Debug)]
pub(crate) struct Blocks<'a> {
    pub(crate) front: &'a [u8],
    pub(crate) size: usize,
    pub(crate) image: &'a [u8],
    pub(crate) new: &'a [u8],
    pub(crate) guard: Block,
    pub(crate) shut: &'a [u8],
    pub(crate) already: bool,
    ghost listed: { Listed front.now size image.now new.now guard.0 shut.now },
}

impl BlockUpdate for Blocks<'_> {
    ghost front = { λ u. u.front.now };

    ghost size = { λ u. u.size };

    ghost image = { λ u. u.image.now };

    ghost new_image = { λ u. u.new.now };

    ghost guard = { λ u. u.guard.0 };

    ghost shut = { λ u. u.shut.now };

    ghost is_shut = { λ u. u.already };

    ghost listed = { λ u. u.listed };

    fn block_size(&self) -> usize {
        self.size
    }

    fn command_length(&self) -> usize {
        self.front.len() + 1 + self.size
    }

    fn image(&self) -> &[u8] {
        self.image
    }

    fn new_image(&self) -> &[u8] {
        self.new
    }

    fn guard(&self) -> Block {
        self.guard
    }

    fn is_shut(&self) -> bool {
        self.already
    }

    // A command of six bytes, as Type 2 has, is one array: a copy of a few bytes of unknown number is a call.
    fn put_command(&self, block: Block, held: &[u8], command: &mut [u8]) {
        let front = self.front;
        if front.len() == 1 && held.len() == 4 {
            command.copy_from_slice(&[front[0], block.0 as u8, held[0], held[1], held[2], held[3]]);
            return;
        }
        let at = front.len();
        command[at + 1..at + 1 + held.len()].copy_from_slice(held);
        command[..at].copy_from_slice(front);
        command[at] = block.0 as u8;
    }

    fn put_shut(&self, command: &mut [u8]) {
        self.put_command(self.guard, self.shut, command);
    }
}
