// The C functions for Type 6 tags.
// Each type has its own: C calls each by name, with the arguments that its type needs.

ghost use Rattle.std.specs.Prelude.{◌≡◌, [], ◌≤◌};
ghost use Rattle.tag.specs.TagType.{write};
ghost use Rattle.tag.specs.Judge.{judged};
ghost use Rattle.type6.specs.Message.{reading};
ghost use Rattle.type6.specs.Type6.{type6};
ghost use Rattle.type6.specs.Codec.{encode, decode};
ghost use Rattle.zanfirotta.specs.Packed.{PutOutToC, ReadToC, TookToC, packed_verdict, packed_decoded6, block_into6, data_into6};

use crate::answers;
use tag::Block;
use type6::{Command, commands, container};

#[unsafe(no_mangle)]
pub extern "C" fn zan_type6_read(image: &[u8], out: &mut [u64; 6]) -> u64
    ensures { ReadToC (reading image.now) [] out.old result [] out.new }
{
    answers::reading(type6::read::read(image), out)
}

#[unsafe(no_mangle)]
pub extern "C" fn zan_type6_write(image: &[u8], message: &[u8], list: &mut [u8]) -> u64
    ensures { PutOutToC (λ room. write type6 room image.now message.now) list.old result list.new }
{
    answers::count(type6_write::write::write(image, message, list))
}

#[unsafe(no_mangle)]
pub extern "C" fn zan_type6_judge(image: &[u8], message: &[u8], list: &[u8]) -> u64
    ensures { result ≡ packed_verdict (judged type6 image.now message.now list.now) }
{
    answers::verdict(judge::type6_lists::judge(image, message, list))
}

#[unsafe(no_mangle)]
pub extern "C" fn zan_type6_model(image: &mut [u8], command: &[u8]) -> u64
    ensures { TookToC type6 image.old command.now result image.new }
{
    answers::storing(type6::model::model(image, command))
}

#[unsafe(no_mangle)]
pub extern "C" fn zan_type6_encode(
    block: u64,
    blockdata: &[u8; container::LARGEST_BLOCK],
    size: u64,
    blocks: u64,
    bytes: &mut [u8],
) -> u64
    ensures { PutOutToC (encode size blocks block blockdata.now) bytes.old result bytes.new }
{
    let command = Command {
        block: Block(block as usize),
        bytes: *blockdata,
    };
    answers::count(commands::encode(command, size as usize, blocks as usize, bytes))
}

#[unsafe(no_mangle)]
pub extern "C" fn zan_type6_decode(
    bytes: &[u8],
    size: u64,
    blocks: u64,
    block: &mut u64,
    blockdata: &mut [u8; container::LARGEST_BLOCK],
) -> u64
    ensures answer { result ≡ packed_decoded6 (decode size blocks bytes.now) }
    ensures number { block.new ≡ block_into6 block.old (decode size blocks bytes.now) }
    ensures carried { blockdata.new ≡ data_into6 blockdata.old (decode size blocks bytes.now) }
{
    match commands::decode(bytes, size as usize, blocks as usize) {
        Ok(command) => {
            let used = size as usize;
            *block = command.block.0 as u64;
            blockdata[..used].copy_from_slice(&command.bytes[..used]);
            0
        }
        Err(r) => answers::refusal(r),
    }
}
