// The message's blocks: one of them filled, and the data of a command that stores some of them. The message starts at block 1.

ghost use Rattle.std.specs.Prelude.{◌≡◌, ◌++◌, ◌-◌, ◌*◌, ◌<◌, ◌≤◌, length, drop};
ghost use Rattle.type3_list.specs.Views.Blocks.{filled, blocks_bytes, Chosen};

use tag::Block;
use type3::read::BLOCK_SIZE;

// One block of the message, passed as a part that starts at the block's offset: sixteen bytes, 00h past the end. Blocks that are
// compared and blocks that are written are filled here. A whole block is copied with one load and one store. Both branches copy into
// the one array: when the first returned an array of its own, comparing took 1.7 times as long.
pub(crate) fn fill_block(part: &[u8]) -> [u8; BLOCK_SIZE]
    ensures { result ≡ filled part.now }
{
    let mut block = [0; BLOCK_SIZE];
    if part.len() < BLOCK_SIZE {
        block[..part.len()].copy_from_slice(part);
    } else {
        block.copy_from_slice(&part[..BLOCK_SIZE]);
    }
    block
}

// Where in the message a block's bytes start.
fn offset(block: Block) -> usize
    requires { (0 < block.0) × (block.0 < 256) }
    ensures { result ≡ 16 * (block.0 - 1) }
{
    block.address(BLOCK_SIZE).0 - BLOCK_SIZE
}

// The bytes of the blocks, one after the other.
// By index: the library says nothing of a slice after as_chunks_mut.
pub(crate) fn put_blocks(message: &[u8], blocks: &[u8], out: &mut [u8])
    requires { Chosen message.now blocks.now × (16 * length blocks.now ≤ length out.old) }
    ensures { out.new ≡ blocks_bytes message.now blocks.now ++ drop (16 * length blocks.now) out.old }
{
    for (j, block) in blocks.iter().enumerate() {
        let part = &message[offset(Block(usize::from(*block)))..];
        out[BLOCK_SIZE * j..BLOCK_SIZE * (j + 1)].copy_from_slice(&fill_block(part));
    }
}
