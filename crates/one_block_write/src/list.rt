// The list of write commands: the guard block shut, unless it is shut already; then the other blocks that change, rising; then the
// guard block with all its new bytes.

ghost use Rattle.std.specs.Prelude.{◌≡◌, ◌++◌, ◌*◌, ◌<◌, ◌≤◌, ◌/◌, length, drop};
ghost use Rattle.tag.specs.PublicContracts.{PutOut};
ghost use Rattle.one_block_write.specs.Views.Listing.{command_length, block_bytes, blocks_bytes, shut_command, shut_length, guarded_output, BlocksAsked, Listed};

use crate::blocks::Blocks;
use crate::{BlockUpdate, between};
use tag::{Block, Refusal};

// Writes the command of a block to the front of `out`, with the block's new bytes.
fn put_block<U: BlockUpdate>(update: &U, block: Block, out: &mut [u8])
    requires { (block.0 < length (U.new_image update.now) / U.size update.now) × (command_length (U.front update.now) (U.size update.now) ≤ length out.old) }
    ensures { out.new ≡ block_bytes (U.front update.now) (U.size update.now) (U.new_image update.now) block.0 ++ drop (command_length (U.front update.now) (U.size update.now)) out.old }
{
    let size = update.block_size();
    let at = block.address(size).0;
    let held = &update.new_image()[at..at + size];
    update.put_command(block, held, &mut out[..update.command_length()]);
}

// Writes the commands of the blocks, in order, to the front of `out`, with their new bytes.
fn put_blocks<U: BlockUpdate>(update: &U, blocks: &[u8], out: &mut [u8])
    requires { BlocksAsked (U.size update.now) (U.new_image update.now) blocks.now × (command_length (U.front update.now) (U.size update.now) * length blocks.now ≤ length out.old) }
    ensures { out.new ≡ blocks_bytes (U.front update.now) (U.size update.now) (U.new_image update.now) blocks.now ++ drop (command_length (U.front update.now) (U.size update.now) * length blocks.now) out.old }
{
    let mut at = 0;
    for block in blocks {
        put_block(update, Block(usize::from(*block)), &mut out[at..]);
        at += update.command_length();
    }
}

// Writes the command that shuts the guard block, unless that is shut already, and returns where the next command goes.
fn put_shut<U: BlockUpdate>(update: &U, out: &mut [u8]) -> usize
    requires { shut_length (U.front update.now) (U.size update.now) (U.is_shut update.now) ≤ length out.old }
    ensures next { result ≡ shut_length (U.front update.now) (U.size update.now) (U.is_shut update.now) }
    ensures puts { out.new ≡ shut_command (U.front update.now) (U.guard update.now) (U.shut update.now) (U.is_shut update.now) ++ drop (shut_length (U.front update.now) (U.size update.now) (U.is_shut update.now)) out.old }
{
    if update.is_shut() {
        return 0;
    }
    let length = update.command_length();
    update.put_shut(&mut out[..length]);
    length
}

// Writes the list that turns the tag into its new image to the front of `list`, and answers the number of commands. Refuses with 12 if
// the list is longer than its buffer.
pub fn put_update<U: BlockUpdate>(update: &U, list: &mut [u8]) -> Result<usize, Refusal>
    ensures { PutOut (λ room. guarded_output room (U.front update.now) (U.size update.now) (U.image update.now) (U.new_image update.now) (U.guard update.now) (U.shut update.now) (U.is_shut update.now)) list.old result list.new }
{
    let between = between::blocks_to_write(update);
    let count = usize::from(!update.is_shut()) + between.len() + 1;
    let step = update.command_length();
    if list.len() < step * count {
        return Err(Refusal::ShortBuffer);
    }
    let at = put_shut(update, list);
    put_blocks(update, between.as_slice(), &mut list[at..]);
    put_block(
        update,
        update.guard(),
        &mut list[at + step * between.len()..],
    );
    Ok(count)
}

// Writes the list that turns `image` into `new` to the front of `list`, and answers the number of commands. A command is the bytes of
// `front`, the block's number, and the `size` bytes of the block. The guard block is shut with the bytes of `shut`, unless it is shut
// `already`; all else is stored from the new image. Refuses with 12 if the list is longer than its buffer.
pub fn put_list(
    front: &[u8],
    size: usize,
    image: &[u8],
    new: &[u8],
    guard: Block,
    shut: &[u8],
    already: bool,
    list: &mut [u8],
) -> Result<usize, Refusal>
    requires { Listed front.now size image.now new.now guard.0 shut.now }
    ensures { PutOut (λ room. guarded_output room front.now size image.now new.now guard.0 shut.now already) list.old result list.new }
{
    let blocks = Blocks {
        front,
        size,
        image,
        new,
        guard,
        shut,
        already,
    };
    put_update(&blocks, list)
}
