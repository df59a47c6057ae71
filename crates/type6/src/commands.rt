// The codec of Type 6's write command: 02h, 21h, the block number, the bytes of a block. It takes the block size and the number of
// blocks of the tag.

ghost use Rattle.std.specs.Prelude.{◌≡◌};
ghost use Rattle.type6.specs.Codec.{size_defined, nameable, well_formed};
ghost use Rattle.type6.specs.CodecContracts.{EncodedTo, DecodedTo};

use crate::{Command, container};
use tag::{Block, Refusal};

// The flags and the code of a command.
pub const FLAGS: u8 = 0x02;

pub const CODE: u8 = 0x21;

// Where the bytes of a command's block begin.
pub const DATA: usize = 3;

// Whether a tag may have blocks of `size` bytes.
fn is_defined(size: usize) -> bool
    ensures { result ≡ size_defined size }
{
    (1..=container::LARGEST_BLOCK).contains(&size)
}

// Whether a command may name the block.
// Each type has its own: the definitions differ in the first block (nameable of each specs/Codec.antt).
fn nameable(block: usize, blocks: usize) -> bool
    ensures { result ≡ nameable blocks block }
{
    block < blocks && block <= 255
}

// Writes the command's bytes to the front of `bytes`: 20 if no tag has such blocks or if the block may not be named, 12 if the bytes
// do not fit.
// Size and blocks are apart here and below, as C and codec6 (demands/specs/Code2.antt) have them.
pub fn encode(
    command: Command,
    size: usize,
    blocks: usize,
    bytes: &mut [u8],
) -> Result<usize, Refusal>
    ensures { EncodedTo size blocks command bytes.old result bytes.new }
{
    let block = command.block.0;
    if !is_defined(size) || !nameable(block, blocks) {
        return Err(Refusal::MalformedCommand);
    }
    let length = DATA + size;
    if bytes.len() < length {
        return Err(Refusal::ShortBuffer);
    }
    bytes[..DATA].copy_from_slice(&[FLAGS, CODE, block as u8]);
    bytes[DATA..length].copy_from_slice(&command.bytes[..size]);
    Ok(length)
}

// Whether the bytes are a well-formed command.
pub(crate) fn is_command(bytes: &[u8], size: usize, blocks: usize) -> bool
    ensures { result ≡ well_formed size blocks bytes.now }
{
    is_defined(size)
        && bytes.len() == DATA + size
        && matches!(*bytes, [FLAGS, CODE, block, ..] if nameable(usize::from(block), blocks))
}

// Reads a command: 20 if the bytes are not well formed.
pub fn decode(bytes: &[u8], size: usize, blocks: usize) -> Result<Command, Refusal>
    ensures { DecodedTo size blocks bytes.now result }
{
    if !is_command(bytes, size, blocks) {
        return Err(Refusal::MalformedCommand);
    }
    // The block's number is taken again: is_command answers a bool, as well_formed (specs/Codec.antt) does.
    let mut held = [0u8; container::LARGEST_BLOCK];
    held[..size].copy_from_slice(&bytes[DATA..]);
    Ok(Command {
        block: Block(usize::from(bytes[2])),
        bytes: held,
    })
}
