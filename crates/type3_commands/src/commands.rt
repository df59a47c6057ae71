// The codec of Type 3's write command (Update): 08h, the IDm, one service and its code, the block count, the block list, and
// sixteen bytes for each block. It takes the IDm, Nbw and Nmaxb.

ghost use Rattle.std.specs.Prelude.{◌≡◌, ◌&&◌, ◌++◌, ◌∷◌, [], ◌<◌, ◌≤◌, leb, length, take, replicate, MatchOption, true, false};
ghost use Rattle.tag.specs.Bytes.{overwrite};
ghost use Rattle.type3.specs.Update.{blocks_per_command};
ghost use Rattle.type3.specs.Codec.{well_listed, opening, command_bytes, decode, span};
ghost use Rattle.type3_commands.specs.Views.InPlace.{framed, Splits};
ghost use Rattle.type3_commands.specs.CodecContracts.{EncodedTo, DecodedTo};
ghost use Rattle.type3_commands.specs.Views.Framing.{listed_as, PutAsked};

use crate::listed::Listed;
use crate::{Command, block_list};
use tag::Refusal;
use type3::read;

// The most blocks that a command may list.
pub const MOST_BLOCKS: usize = 8;

// Where a command has its block count.
pub const COUNT: usize = 12;

// The bytes of a command before its block list; the count is the last of them.
pub const FRONT: usize = COUNT + 1;

// The bytes that a command has for each block: its list element and its data.
pub const PER_BLOCK: usize = block_list::ELEMENT + read::BLOCK_SIZE;

// The most bytes of block data in a command.
pub const MOST_BYTES: usize = MOST_BLOCKS * read::BLOCK_SIZE;

// Whether a command may list `count` blocks.
fn countable(count: usize, nbw: usize) -> bool
    ensures { result ≡ leb 1 count && leb count (blocks_per_command nbw) }
{
    (1..=nbw.min(MOST_BLOCKS)).contains(&count)
}

// The bytes up to the block count, and the count.
pub fn opening(idm: [u8; 8], count: u8) -> [u8; FRONT]
    ensures { result ≡ opening idm ++ (count ∷ []) }
{
    let [i0, i1, i2, i3, i4, i5, i6, i7] = idm;
    [
        0x08, i0, i1, i2, i3, i4, i5, i6, i7, 0x01, 0x09, 0x00, count,
    ]
}

// Writes a command whose blocks may be listed. The bytes have its length.
fn put(idm: [u8; 8], blocks: &[usize], blockdata: &[u8], bytes: &mut [u8])
    requires { PutAsked blocks.now blockdata.now bytes.old }
    ensures { bytes.new ≡ command_bytes idm blocks.now blockdata.now }
{
    let (front, rest) = bytes.split_at_mut(FRONT);
    let (list, data) = rest.split_at_mut(block_list::ELEMENT * blocks.len());
    front.copy_from_slice(&opening(idm, blocks.len() as u8));
    block_list::put(blocks, list);
    data.copy_from_slice(blockdata);
}

// Whether a command may list the first `count` of the blocks.
fn well_listed(count: usize, blocks: &[usize; MOST_BLOCKS], nbw: usize, nmaxb: usize) -> bool
    ensures { result ≡ leb count (length blocks.now) && well_listed nbw nmaxb (take count blocks.now) }
{
    countable(count, nbw) && block_list::listable(&blocks[..count], nmaxb)
}

// Writes the command's bytes to the front of `bytes`: 20 if its blocks may not be listed together, 12 if the bytes do not fit.
// IDm, Nbw and Nmaxb are apart, as C and codec3 (demands/specs/Code2.antt) have them.
pub fn encode(
    command: Command,
    idm: &[u8; 8],
    nbw: usize,
    nmaxb: usize,
    bytes: &mut [u8],
) -> Result<usize, Refusal>
    ensures { EncodedTo idm.now nbw nmaxb command bytes.old result bytes.new }
{
    let count = command.count;
    let blocks = block_list::block_numbers(command.blocks);
    if !well_listed(count, &blocks, nbw, nmaxb) {
        return Err(Refusal::MalformedCommand);
    }
    let size = FRONT + PER_BLOCK * count;
    if bytes.len() < size {
        return Err(Refusal::ShortBuffer);
    }
    let blockdata = &command.bytes[..read::BLOCK_SIZE * count];
    put(*idm, &blocks[..count], blockdata, &mut bytes[..size]);
    Ok(size)
}

// How many bytes of a list its first command takes, by the command's block count.
pub fn span(list: &[u8]) -> usize
    ensures is { result ≡ span list.now }
    ensures small { result < 4608 }
{
    match list.get(COUNT) {
        Some(count) => FRONT + PER_BLOCK * usize::from(*count),
        None => FRONT,
    }
}

// The parts of bytes that have a command's count, length and opening, and 80h in each element; the blocks listed may still be wrong.
#[inline(always)]
fn split<'a>(bytes: &'a [u8], idm: &[u8; 8], nbw: usize) -> Option<Listed<'a>>
    ensures { MatchOption result (framed idm.now nbw bytes.now ≡ false) (λ l. (framed idm.now nbw bytes.now ≡ true) × Splits bytes.now l) }
{
    let rest = bytes.strip_prefix(&[0x08])?;
    let rest = rest.strip_prefix(idm)?;
    let rest = rest.strip_prefix(&[0x01, 0x09, 0x00])?;
    let [count, rest @ ..] = rest else {
        return None;
    };
    let count = usize::from(*count);
    if !countable(count, nbw) || rest.len() != PER_BLOCK * count {
        return None;
    }
    let (list, blockdata) = rest.split_at(block_list::ELEMENT * count);
    let (elements, _) = list.as_chunks();
    if !block_list::well_begun(elements) {
        return None;
    }
    Some(Listed {
        elements,
        blockdata,
    })
}

// The parts of a well-formed command. Always inlined, with `split`: a call returns five words through memory, and the model would take
// 1.3 times as long.
#[inline(always)]
pub fn parts<'a>(bytes: &'a [u8], idm: &[u8; 8], nbw: usize, nmaxb: usize) -> Option<Listed<'a>>
    ensures { listed_as result ≡ decode idm.now nbw nmaxb bytes.now }
{
    let listed = split(bytes, idm, nbw)?;
    block_list::listable(listed.elements, nmaxb).then_some(listed)
}

// The blocks' bytes, and zeros after them. By index: with `copy_from_slice` the compiler moves all 128 bytes three times more, and with
// a block at a time it clears the bytes behind by a call.
fn padded(listed: &Listed<'_>) -> [u8; MOST_BYTES]
    ensures { result ≡ overwrite listed.now.blockdata.now (replicate 128 0) }
{
    let mut bytes = [0; MOST_BYTES];
    for (k, byte) in listed.blockdata.iter().enumerate() {
        bytes[k] = *byte;
    }
    bytes
}

// Reads a command: 20 if the bytes are not well formed.
pub fn decode(bytes: &[u8], idm: &[u8; 8], nbw: usize, nmaxb: usize) -> Result<Command, Refusal>
    ensures { DecodedTo idm.now nbw nmaxb bytes.now result }
{
    let listed = parts(bytes, idm, nbw, nmaxb).ok_or(Refusal::MalformedCommand)?;
    Ok(Command {
        count: listed.elements.len(),
        blocks: block_list::blocks_of(block_list::numbers(listed.elements)),
        bytes: padded(&listed),
    })
}
