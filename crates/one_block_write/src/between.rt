// Which blocks a list writes between the guard block's two commands: all but the guard block and those that hold their new bytes.

ghost use Rattle.std.specs.Prelude.{◌≡◌, ◌*◌, ◌/◌, ◌<◌, ◌≤◌, length};
ghost use Rattle.tag.specs.Bytes.{same};
ghost use Rattle.tag.specs.Plan.{between_by};
ghost use Rattle.one_block_write.specs.Views.Listing.{chosen};

use crate::BlockUpdate;
use arrayvec::ArrayVec;
use tag::Block;

// The most blocks that a list writes: a byte names each of them.
const MOST_BLOCKS: usize = 256;

// Whether two slices of one length, from N to 2 * N bytes, are the same: their first N bytes, and their last N.
fn same_ends<const N: usize>(a: &[u8], b: &[u8]) -> bool
    requires { (N ≤ length a.now) × (length a.now ≤ 2 * N) × (length b.now ≡ length a.now) }
    ensures { result ≡ same a.now b.now }
{
    a.first_chunk::<N>() == b.first_chunk::<N>() && a.last_chunk::<N>() == b.last_chunk::<N>()
}

// Whether two blocks hold the same bytes. From four bytes on they are compared as arrays, which takes a comparison or two of words:
// `==` of slices is a call, and a Type 6 tag with blocks of 16 bytes took more than twice as long.
fn same_block(a: &[u8], b: &[u8]) -> bool
    ensures { result ≡ same a.now b.now }
{
    match a.len() {
        _ if a.len() != b.len() => false,
        4 => a.as_array::<4>() == b.as_array::<4>(),
        5..=8 => same_ends::<4>(a, b),
        9..=16 => same_ends::<8>(a, b),
        17..=32 => same_ends::<16>(a, b),
        _ => a == b,
    }
}

// Whether the list writes the block between the guard block's two commands. The bytes are compared first: most blocks of a tag that is
// rewritten hold theirs, and one test is enough for those.
fn is_between<U: BlockUpdate>(update: &U, block: Block) -> bool
    requires { block.0 < length (U.new_image update.now) / U.size update.now }
    ensures { result ≡ between_by (U.size update.now) (U.guard update.now) (U.image update.now) (U.new_image update.now) block.0 }
{
    let size = update.block_size();
    let at = block.address(size).0;
    let held = &update.image()[at..at + size];
    !same_block(held, &update.new_image()[at..at + size]) && block != update.guard()
}

// The numbers of the blocks to write, rising.
pub(crate) fn blocks_to_write<U: BlockUpdate>(update: &U) -> ArrayVec<u8, MOST_BLOCKS>
    ensures { result.items ≡ chosen (U.size update.now) (U.image update.now) (U.new_image update.now) (U.guard update.now) }
{
    let mut blocks = ArrayVec::new();
    // By number: the guard block is left out by its number, and the list holds numbers.
    for b in 0..update.new_image().len() / update.block_size() {
        if is_between(update, Block(b)) {
            blocks.push(b as u8);
        }
    }
    blocks
}
