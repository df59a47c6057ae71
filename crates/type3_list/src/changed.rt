// Which of the message's blocks a list writes: those whose bytes the tag does not hold already. Blocks are left out before the rest
// are dealt out to commands, so the blocks of one command need not be neighbours.

ghost use Rattle.std.specs.Prelude.{◌≡◌, ◌+◌, ◌*◌, ◌≤◌, length, take};
ghost use Rattle.type3.specs.Update.{blocks_for};
ghost use Rattle.type3_list.specs.Views.Blocks.{changed_blocks};

use crate::blocks::fill_block;
use arrayvec::ArrayVec;
use tag::Block;
use type3::read::BLOCK_SIZE;

// The most blocks that a message takes: block 0 has none of it, and a block list element has one byte for the block's number.
pub const MOST_BLOCKS: usize = 255;

// Collects the numbers of the message's blocks that the list writes, rising. The caller lends the vector: returned by value, it would
// be copied, and a tag of four blocks took 1.5 times as long.
pub fn collect(image: &[u8], message: &[u8], changed: &mut ArrayVec<u8, MOST_BLOCKS>)
    requires { (blocks_for (length message.now) ≤ 255) × (16 * (1 + blocks_for (length message.now)) ≤ length image.now) }
    ensures { changed.new.items ≡ changed_blocks image.now message.now }
{
    let (held, _) = image.as_chunks::<BLOCK_SIZE>();
    changed.clear();
    for (before, part) in message.chunks(BLOCK_SIZE).enumerate() {
        let block = Block(before + 1);
        if held[block.0] != fill_block(part) {
            changed.push(block.0 as u8);
        }
    }
}

// The same for a caller that has a slice: puts the numbers at the front of `picks`, and answers how many they are.
#[tactic(auto, using(crate::proofs::Comparing::few_changed))]
pub fn blocks_to_write(image: &[u8], message: &[u8], picks: &mut [u8]) -> usize
    requires { (blocks_for (length message.now) ≤ 255) × (16 * (1 + blocks_for (length message.now)) ≤ length image.now) × (blocks_for (length message.now) ≤ length picks.old) }
    ensures few { result ≤ blocks_for (length message.now) }
    ensures which { take result picks.new ≡ changed_blocks image.now message.now }
{
    let mut changed = ArrayVec::new();
    collect(image, message, &mut changed);
    picks[..changed.len()].copy_from_slice(changed.as_slice());
    changed.len()
}
