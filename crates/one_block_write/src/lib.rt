// The writer of lists whose commands store one block each, as those of Types 2 and 6 do. A type of tag says what is particular to it
// by the trait `BlockUpdate`.

#![tactic(auto)]

mod between;
mod blocks;
pub mod list;

ghost use Rattle.std.specs.Prelude.{◌≡◌, ◌<◌, Bool, List, ℕ, length};
ghost use Rattle.one_block_write.specs.Views.Listing.{command_length, command_bytes, Listed};

use tag::Block;

// A tag and its new image, and the commands that write one block of it. The guard block is shut first and opened last.
pub trait BlockUpdate {
    // The bytes of a command before the block's number, and how many bytes a block has.
    ghost front: { Self → List ℕ };

    ghost size: { Self → ℕ };

    ghost image: { Self → List ℕ };

    ghost new_image: { Self → List ℕ };

    // The guard block, the bytes that it is shut with, and whether it is shut already.
    ghost guard: { Self → ℕ };

    ghost shut: { Self → List ℕ };

    ghost is_shut: { Self → Bool };

    // How many bytes a block has.
    fn block_size(&self) -> usize
        ensures { result ≡ size self.now };

    // How many bytes a command has.
    fn command_length(&self) -> usize
        ensures { result ≡ command_length (front self.now) (size self.now) };

    fn image(&self) -> &[u8]
        ensures { result.now ≡ image self.now };

    fn new_image(&self) -> &[u8]
        ensures { result.now ≡ new_image self.now };

    fn guard(&self) -> Block
        ensures { result.0 ≡ guard self.now };

    // Whether the guard block is shut already.
    fn is_shut(&self) -> bool
        ensures { result ≡ is_shut self.now };

    // Writes a command: the block, and the bytes that it is to hold.
    fn put_command(&self, block: Block, held: &[u8], command: &mut [u8])
        requires { (block.0 < 256) × (length held.now ≡ size self.now) × (length command.old ≡ command_length (front self.now) (size self.now)) }
        ensures { command.new ≡ command_bytes (front self.now) block.0 held.now };

    // Writes the command that shuts the guard block.
    fn put_shut(&self, command: &mut [u8])
        requires { length command.old ≡ command_length (front self.now) (size self.now) }
        ensures { command.new ≡ command_bytes (front self.now) (guard self.now) (shut self.now) };

    // Both images have the same whole blocks, few enough to be named by a byte.
    ghost listed: { (u : Self) → Listed (front u) (size u) (image u) (new_image u) (guard u) (shut u) };
}
