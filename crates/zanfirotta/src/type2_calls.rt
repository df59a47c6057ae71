// The C functions for Type 2 tags.
// Each type has its own: C calls each by name, with the arguments that its type needs.

ghost use Rattle.std.specs.Prelude.{◌≡◌};
ghost use Rattle.tag.specs.TagType.{write};
ghost use Rattle.tag.specs.Judge.{judged};
ghost use Rattle.type2.specs.Type2.{type2};
ghost use Rattle.type2.specs.Codec.{encode, decode};
ghost use Rattle.zanfirotta.specs.Packed.{PutOutToC, ReadToC, TookToC, packed_verdict, packed_decoded2, block_into, data_into};

use crate::answers;
use tag::Block;
use type2::{Command, commands, container};

#[unsafe(no_mangle)]
pub extern "C" fn zan_type2_read(image: &[u8], gathered: &mut [u8], out: &mut [u64; 6]) -> u64
    ensures { ReadToC (type2.reading image.now) gathered.old out.old result gathered.new out.new }
{
    answers::reading(type2::read::read(image, gathered), out)
}

#[unsafe(no_mangle)]
pub extern "C" fn zan_type2_write(image: &[u8], message: &[u8], list: &mut [u8]) -> u64
    ensures { PutOutToC (λ room. write type2 room image.now message.now) list.old result list.new }
{
    answers::count(type2_write::write::write(image, message, list))
}

#[unsafe(no_mangle)]
pub extern "C" fn zan_type2_judge(image: &[u8], message: &[u8], list: &[u8]) -> u64
    ensures { result ≡ packed_verdict (judged type2 image.now message.now list.now) }
{
    answers::verdict(judge::type2_lists::judge(image, message, list))
}

#[unsafe(no_mangle)]
pub extern "C" fn zan_type2_model(image: &mut [u8], command: &[u8]) -> u64
    ensures { TookToC type2 image.old command.now result image.new }
{
    answers::storing(type2::model::model(image, command))
}

#[unsafe(no_mangle)]
pub extern "C" fn zan_type2_encode(
    block: u64,
    blockdata: &[u8; container::BLOCK_SIZE],
    blocks: u64,
    bytes: &mut [u8],
) -> u64
    ensures { PutOutToC (encode blocks block blockdata.now) bytes.old result bytes.new }
{
    let command = Command {
        block: Block(block as usize),
        bytes: *blockdata,
    };
    answers::count(commands::encode(command, blocks as usize, bytes))
}

#[unsafe(no_mangle)]
pub extern "C" fn zan_type2_decode(
    bytes: &[u8],
    blocks: u64,
    block: &mut u64,
    blockdata: &mut [u8; container::BLOCK_SIZE],
) -> u64
    ensures answer { result ≡ packed_decoded2 (decode blocks bytes.now) }
    ensures number { block.new ≡ block_into block.old (decode blocks bytes.now) }
    ensures carried { blockdata.new ≡ data_into blockdata.old (decode blocks bytes.now) }
{
    match commands::decode(bytes, blocks as usize) {
        Ok(command) => {
            let bytes = command.bytes;
            *block = command.block.0 as u64;
            *blockdata = bytes;
            0
        }
        Err(r) => answers::refusal(r),
    }
}
