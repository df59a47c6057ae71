// The C functions for Type 3 tags.
// Each type has its own: C calls each by name, with the arguments that its type needs.

ghost use Rattle.std.specs.Prelude.{◌≡◌, [], ◌*◌, ◌≤◌, take};
ghost use Rattle.tag.specs.Bytes.{overwrite};
ghost use Rattle.tag.specs.TagType.{write};
ghost use Rattle.tag.specs.Judge.{judged};
ghost use Rattle.type3.specs.Message.{reading};
ghost use Rattle.type3.specs.Type3.{type3};
ghost use Rattle.type3.specs.Codec.{encode, decode};
ghost use Rattle.type3_commands.specs.CodecContracts.{block_numbers};
ghost use Rattle.zanfirotta.specs.Packed.{PutOutToC, ReadToC, TookToC, packed_verdict, packed_span, packed_decoded3, count_into, blocks_into, blockdata_into};

use crate::answers;
use tag::{Block, Refusal};
use type3::read;
use type3_commands::{Command, commands};

#[unsafe(no_mangle)]
pub extern "C" fn zan_type3_read(image: &[u8], out: &mut [u64; 6]) -> u64
    ensures { ReadToC (reading image.now) [] out.old result [] out.new }
{
    answers::reading(type3::read::read(image), out)
}

#[unsafe(no_mangle)]
pub extern "C" fn zan_type3_write(
    image: &[u8],
    message: &[u8],
    idm: &[u8; 8],
    list: &mut [u8],
) -> u64
    ensures { PutOutToC (λ room. write (type3 idm.now) room image.now message.now) list.old result list.new }
{
    answers::count(type3_write::write::write(image, message, idm, list))
}

#[unsafe(no_mangle)]
pub extern "C" fn zan_type3_judge(image: &[u8], message: &[u8], idm: &[u8; 8], list: &[u8]) -> u64
    ensures { result ≡ packed_verdict (judged (type3 idm.now) image.now message.now list.now) }
{
    answers::verdict(judge::type3_lists::judge(image, message, idm, list))
}

#[unsafe(no_mangle)]
pub extern "C" fn zan_type3_model(image: &mut [u8], idm: &[u8; 8], command: &[u8]) -> u64
    ensures { TookToC (type3 idm.now) image.old command.now result image.new }
{
    answers::storing(type3_model::model::model(image, idm, command))
}

#[unsafe(no_mangle)]
pub extern "C" fn zan_type3_command_len(list: &[u8]) -> u64
    ensures { result ≡ packed_span list.now }
{
    let span = commands::span(list);
    if list.len() < span {
        return answers::refusal(Refusal::MalformedCommand);
    }
    answers::count(Ok(span))
}

#[unsafe(no_mangle)]
pub extern "C" fn zan_type3_encode(
    count: u64,
    blocks: &[u64; commands::MOST_BLOCKS],
    blockdata: &[u8; commands::MOST_BYTES],
    idm: &[u8; 8],
    nbw: u64,
    nmaxb: u64,
    bytes: &mut [u8],
) -> u64
    ensures { PutOutToC (encode idm.now nbw nmaxb count blocks.now blockdata.now) bytes.old result bytes.new }
{
    let command = Command {
        count: count as usize,
        blocks: blocks.map(|number| Block(number as usize)),
        bytes: *blockdata,
    };
    answers::count(commands::encode(command, idm, nbw as usize, nmaxb as usize, bytes))
}

// Writes a command to C's buffers: how many blocks it has, their numbers and their bytes.
fn deliver(
    command: Command,
    count: &mut u64,
    blocks: &mut [u64; commands::MOST_BLOCKS],
    blockdata: &mut [u8; commands::MOST_BYTES],
)
    requires { command.count ≤ 8 }
    ensures count_after { count.new ≡ command.count }
    ensures blocks_after { blocks.new ≡ overwrite (take command.count (block_numbers command.blocks)) blocks.old }
    ensures blockdata_after { blockdata.new ≡ overwrite (take (16 * command.count) command.bytes) blockdata.old }
{
    let used = command.count;
    *count = used as u64;
    let numbers = command.blocks.map(|block| block.0 as u64);
    blocks[..used].copy_from_slice(&numbers[..used]);
    let bytes = read::BLOCK_SIZE * used;
    blockdata[..bytes].copy_from_slice(&command.bytes[..bytes]);
}

#[unsafe(no_mangle)]
pub extern "C" fn zan_type3_decode(
    bytes: &[u8],
    idm: &[u8; 8],
    nbw: u64,
    nmaxb: u64,
    count: &mut u64,
    blocks: &mut [u64; commands::MOST_BLOCKS],
    blockdata: &mut [u8; commands::MOST_BYTES],
) -> u64
    ensures answer { result ≡ packed_decoded3 (decode idm.now nbw nmaxb bytes.now) }
    ensures many { count.new ≡ count_into count.old (decode idm.now nbw nmaxb bytes.now) }
    ensures listed { blocks.new ≡ blocks_into blocks.old (decode idm.now nbw nmaxb bytes.now) }
    ensures carried { blockdata.new ≡ blockdata_into blockdata.old (decode idm.now nbw nmaxb bytes.now) }
{
    match commands::decode(bytes, idm, nbw as usize, nmaxb as usize) {
        Ok(command) => {
            deliver(command, count, blocks, blockdata);
            0
        }
        Err(r) => answers::refusal(r),
    }
}
