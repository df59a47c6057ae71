// The judge of Type 6 lists. It gives refusals 1 to 11 and 14 as writing does and then judges the list.

ghost use Rattle.tag.specs.PublicContracts.{Judged};
ghost use Rattle.type6.specs.Type6.{type6};

use crate::lists;
use kinds::type6_update::Type6Update;
use tag::Fault;
use type6::container;

// Judges a list that is to write the message to the tag. The list is the bytes of its commands, laid end to end.
// Each type has its own: the longest images differ, and Type 3's call takes an IDm.
pub fn judge(image: &[u8], message: &[u8], list: &[u8]) -> Result<usize, Fault>
    ensures { Judged type6 image.now message.now list.now result }
{
    let update = Type6Update::new(image, message)?;
    let mut work = [0u8; container::LONGEST_IMAGE];
    lists::judge_update(&update, list, &mut work)
}
