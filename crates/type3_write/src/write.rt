// Writing to a Type 3 tag: which blocks, in how many commands, and what is refused.

ghost use Rattle.tag.specs.PublicContracts.{Wrote};
ghost use Rattle.type3.specs.Type3.{type3};

use arrayvec::ArrayVec;
use tag::Refusal;
use type3::{read, space};
use type3_commands::commands;
use type3_list::{WriteList, changed};

// Writes the list for the message to the front of `list`, and answers with the number of its commands.
pub fn write(image: &[u8], message: &[u8], idm: &[u8; 8], list: &mut [u8]) -> Result<usize, Refusal>
    ensures { Wrote (type3 idm.now) image.now message.now list.old result list.new }
{
    let information = read::attribute_information(image)?;
    space::check(information, message.len())?;
    let mut blocks = ArrayVec::new();
    changed::collect(image, message, &mut blocks);
    let width = information.nbw.min(commands::MOST_BLOCKS);
    let turns = blocks.len().div_ceil(width);
    let planned = WriteList {
        image,
        message,
        idm: *idm,
        information,
        blocks: blocks.as_slice(),
        width,
        turns,
    };
    if list.len() < planned.length() {
        return Err(Refusal::ShortBuffer);
    }
    planned.put_list(list);
    Ok(planned.count())
}
