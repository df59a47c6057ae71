// Writing a message: the list of commands, or one of the refusals 1 to 5, 7, 9 to 12 and 14.

ghost use Rattle.tag.specs.PublicContracts.{Wrote};
ghost use Rattle.type6.specs.Type6.{type6};

use crate::blocks;
use crate::blocks::Blocks;
use one_block_write::list;
use tag::Refusal;
use type6::{container, space};

// Writes the list of commands that puts the message on the tag to the front of `list`, and answers the number of commands. A
// refusal changes no byte of `list`.
pub fn write(image: &[u8], message: &[u8], list: &mut [u8]) -> Result<usize, Refusal>
    ensures { Wrote type6 image.now message.now list.old result list.new }
{
    let container = container::read_container(image)?;
    space::check(container, message.len())?;
    let mut new = [0u8; container::LONGEST_IMAGE];
    let new = &mut new[..image.len()];
    blocks::lay(image, message, container.file, new);
    let blocks = Blocks {
        image,
        new,
        container,
    };
    list::put_update(&blocks, list)
}
