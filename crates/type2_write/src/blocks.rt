// What is particular to Type 2 in the list of write commands: the command, and how the guard block is shut. The guard block is the
// block of the first length byte.

ghost use Rattle.std.specs.Prelude.{◌/◌, ◌<◌, length};
ghost use Rattle.one_block_write.specs.Views.Listing.{Listed};
ghost use Rattle.type2_write.specs.Views.Listing.{front, shut_bytes};

use one_block_write::BlockUpdate;
use tag::{Address, Block};
use type2::container::BLOCK_SIZE;

// The code of a command.
const CODE: u8 = 0xA2;

// Where the bytes of a command's block begin.
const DATA: usize = 2;

// A tag, its new image, and where the first length byte is.
#[derive(Clone, Copy, Debug)]
pub(crate) struct Blocks<'a> {
    pub(crate) image: &'a [u8],
    pub(crate) new: &'a [u8],
    pub(crate) first: Address,
    ghost listed: { Listed front 4 image.now new.now (first.0 / 4) (shut_bytes image.now first.0) },
    ghost inside: { first.0 < length image.now },
}

impl BlockUpdate for Blocks<'_> {
    ghost use Rattle.std.specs.Prelude.{◌/◌, eqb};
    ghost use Rattle.tag.specs.Bytes.{byte};
    ghost use Rattle.type2_write.specs.Views.Listing.{front, shut_bytes};

    ghost front = { λ u. front };

    ghost size = { λ u. 4 };

    ghost image = { λ u. u.image.now };

    ghost new_image = { λ u. u.new.now };

    ghost guard = { λ u. u.first.0 / 4 };

    ghost shut = { λ u. shut_bytes u.image.now u.first.0 };

    ghost is_shut = { λ u. eqb (byte u.image.now u.first.0) 0x00 };

    ghost listed = { λ u. u.listed };

    fn block_size(&self) -> usize {
        BLOCK_SIZE
    }

    fn command_length(&self) -> usize {
        DATA + BLOCK_SIZE
    }

    fn image(&self) -> &[u8] {
        self.image
    }

    fn new_image(&self) -> &[u8] {
        self.new
    }

    fn guard(&self) -> Block {
        self.first.block(BLOCK_SIZE)
    }

    fn is_shut(&self) -> bool {
        self.image[self.first.0] == 0x00
    }

    // One array: a copy of a few bytes of unknown number is a call.
    fn put_command(&self, block: Block, held: &[u8], command: &mut [u8]) {
        command.copy_from_slice(&[CODE, block.0 as u8, held[0], held[1], held[2], held[3]]);
    }

    // The image's bytes, with the first length byte 00h.
    fn put_shut(&self, command: &mut [u8]) {
        let guard = self.guard();
        let at = guard.address(BLOCK_SIZE).0;
        self.put_command(guard, &self.image[at..at + BLOCK_SIZE], command);
        command[DATA + self.first.0 % BLOCK_SIZE] = 0x00;
    }
}
