// The codec of Type 2's write command: A2h, the block number, four bytes. It takes the number of blocks of the tag.

ghost use Rattle.std.specs.Prelude.{◌≡◌};
ghost use Rattle.type2.specs.Codec.{nameable};
ghost use Rattle.type2.specs.CodecContracts.{EncodedTo, DecodedTo};

use crate::{Command, container};
use tag::{Block, Refusal};

// How many bytes a command has.
pub const LENGTH: usize = 2 + container::BLOCK_SIZE;

// The first block that a command may name: the data area begins there.
const FIRST_BLOCK: usize = container::FIRST / container::BLOCK_SIZE;

// Whether a command may name the block.
// Each type has its own: the definitions differ in the first block (`nameable` of each specs/Codec.antt).
fn nameable(block: usize, blocks: usize) -> bool
    ensures { result ≡ nameable blocks block }
{
    FIRST_BLOCK <= block && block < blocks && block <= 255
}

// Writes the command's bytes to the front of `bytes`. Refuses with 20 if its block may not be named, and with 12 if they do not
// fit.
pub fn encode(command: Command, blocks: usize, bytes: &mut [u8]) -> Result<usize, Refusal>
    ensures { EncodedTo blocks command bytes.old result bytes.new }
{
    let block = command.block.0;
    if !nameable(block, blocks) {
        return Err(Refusal::MalformedCommand);
    }
    if bytes.len() < LENGTH {
        return Err(Refusal::ShortBuffer);
    }
    let [b0, b1, b2, b3] = command.bytes;
    bytes[..LENGTH].copy_from_slice(&[0xA2, block as u8, b0, b1, b2, b3]);
    Ok(LENGTH)
}

// Reads a command. Refuses with 20 if the bytes are not well formed.
#[tactic(auto, using(crate::proofs::Encoding::carried), unfolding(crate::specs::Codec::decode))]
pub fn decode(bytes: &[u8], blocks: usize) -> Result<Command, Refusal>
    ensures { DecodedTo blocks bytes.now result }
{
    match *bytes {
        [0xA2, block, b0, b1, b2, b3] if nameable(usize::from(block), blocks) => Ok(Command {
            block: Block(usize::from(block)),
            bytes: [b0, b1, b2, b3],
        }),
        _ => Err(Refusal::MalformedCommand),
    }
}
