// Writing a message: the list of commands, or one of the refusals 1 to 12.

ghost use Rattle.tag.specs.PublicContracts.{Wrote};
ghost use Rattle.type2.specs.Type2.{type2};

use crate::blocks::Blocks;
use one_block_write::list;
use tag::{Address, Refusal};
use tlv_tag::prepare;
use type2::container;

// Writes the list of commands that puts the message on the tag to the front of `list`, and answers the number of commands. A
// refusal changes no byte of `list`.
pub fn write(image: &[u8], message: &[u8], list: &mut [u8]) -> Result<usize, Refusal>
    ensures { Wrote type2 image.now message.now list.old result list.new }
{
    let area = container::data_area(image)?;
    let mut table = [0; container::LONGEST_IMAGE];
    let mut new = [0u8; container::LONGEST_IMAGE];
    let new = &mut new[..image.len()];
    let first = prepare::prepare(
        image,
        message,
        Address(container::FIRST),
        area.end,
        area.writable,
        &mut table,
        new,
    )?;
    list::put_update(&Blocks { image, new, first }, list)
}
