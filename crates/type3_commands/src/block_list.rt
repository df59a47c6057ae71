// The block list of a command: an element for each block, of two bytes, 80h and the block's number. The loops work with numbers,
// not with `Block`s.

ghost use Rattle.std.specs.Prelude.{◌≡◌, ℕ, ◌*◌, ◌<◌, ◌≤◌, length, map, replicate, get_or};
ghost use Rattle.std.specs.List.{list_all};
ghost use Rattle.tag.specs.Bytes.{has, overwrite};
ghost use Rattle.type3.specs.Codec.{element_bytes, block_list_bytes, listable};
ghost use Rattle.type3_commands.specs.Views.InPlace.{is_begun, number};
ghost use Rattle.type3_commands.specs.Views.Rising.{rising};
ghost use Rattle.type3_commands.specs.CodecContracts.{block_numbers, blocks_of};

use crate::commands;
use tag::Block;

// The bytes of a block list element.
pub const ELEMENT: usize = 2;

// The element of a block.
pub fn element(block: u8) -> [u8; ELEMENT]
    ensures { result ≡ element_bytes block }
{
    [0x80, block]
}

// The numbers of a command's blocks.
pub fn block_numbers(blocks: [Block; commands::MOST_BLOCKS]) -> [usize; commands::MOST_BLOCKS]
    ensures { result ≡ block_numbers blocks }
{
    blocks.map(|block| block.0)
}

// The blocks that have these numbers.
pub fn blocks_of(numbers: [usize; commands::MOST_BLOCKS]) -> [Block; commands::MOST_BLOCKS]
    ensures { result ≡ blocks_of numbers }
{
    numbers.map(Block)
}

// The highest block that a command can list: an element has one byte for the number.
const HIGHEST: usize = 255;

// What has the number of a block: the number itself, or an element.
pub(crate) trait Numbered {
    ghost number: { Self → ℕ };

    fn number(&self) -> usize
        ensures { result ≡ number self.now };
}

impl Numbered for usize {
    ghost number = { λ n. n };

    fn number(&self) -> usize {
        *self
    }
}

impl Numbered for [u8; ELEMENT] {
    ghost use Rattle.type3_commands.specs.Views.InPlace.{number};

    ghost number = { number };

    fn number(&self) -> usize {
        usize::from(self[1])
    }
}

// Whether each block is higher than the one before it, and none is above `most`.
// A loop: two tests a block, and the second needs the block before.
fn rises<T: Numbered>(blocks: &[T], most: usize) -> bool
    requires { most ≤ 255 }
    ensures { result ≡ rising most 0 (map T.number blocks.now) }
{
    let mut low = 0;
    for listed in blocks {
        let block = listed.number();
        if block < low || most < block {
            return false;
        }
        low = block + 1;
    }
    true
}

// Whether the block is among `blocks`. On eight blocks `contains` takes 36 ns, and this loop 23.
fn has<T: Numbered>(blocks: &[T], block: usize) -> bool
    ensures { result ≡ has block (map T.number blocks.now) }
{
    for other in blocks {
        if block == other.number() {
            return true;
        }
    }
    false
}

// The same as `listable`, for blocks in any order: compares each block with all that follow it.
// A loop: two tests a block, and the second needs those after it.
fn listable_in_any_order<T: Numbered>(blocks: &[T], nmaxb: usize) -> bool
    ensures { result ≡ listable nmaxb (map T.number blocks.now) }
{
    for (i, listed) in blocks.iter().enumerate() {
        let block = listed.number();
        if nmaxb < block || HIGHEST < block || has(&blocks[i + 1..], block) {
            return false;
        }
    }
    true
}

// Whether each block is at most Nmaxb and a byte, and none is listed twice. Most commands list their blocks in rising order, and
// then one comparison a block is enough.
pub(crate) fn listable<T: Numbered>(blocks: &[T], nmaxb: usize) -> bool
    ensures { result ≡ listable nmaxb (map T.number blocks.now) }
{
    rises(blocks, nmaxb.min(HIGHEST)) || listable_in_any_order(blocks, nmaxb)
}

// Writes the block list.
// By index: the library says nothing of a slice after as_chunks_mut.
pub(crate) fn put(blocks: &[usize], list: &mut [u8])
    requires { (length list.old ≡ 2 * length blocks.now) × ((i : ℕ) → i < length blocks.now → get_or blocks.now i 0 ≤ 255) }
    ensures { list.new ≡ block_list_bytes blocks.now }
{
    for (i, block) in blocks.iter().enumerate() {
        list[ELEMENT * i..ELEMENT * (i + 1)].copy_from_slice(&element(*block as u8));
    }
}

// Whether each element begins with 80h.
pub(crate) fn well_begun(elements: &[[u8; ELEMENT]]) -> bool
    ensures { result ≡ list_all is_begun elements.now }
{
    elements.iter().all(|[kind, _]| *kind == 0x80)
}

// The numbers of the blocks listed, and zeros after them.
// By index: tried with `iter_mut().zip(elements)`, and the proof did not close.
pub(crate) fn numbers(elements: &[[u8; ELEMENT]]) -> [usize; commands::MOST_BLOCKS]
    requires { length elements.now ≤ 8 }
    ensures { result ≡ overwrite (map number elements.now) (replicate 8 0) }
{
    let mut numbers = [0; commands::MOST_BLOCKS];
    for (i, [_, number]) in elements.iter().enumerate() {
        numbers[i] = usize::from(*number);
    }
    numbers
}
