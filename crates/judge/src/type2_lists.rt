// The judge of Type 2 lists. It gives refusals 1 to 11 as writing does and then judges the list.

ghost use Rattle.tag.specs.PublicContracts.{Judged};
ghost use Rattle.type2.specs.Type2.{type2};

use crate::lists;
use kinds::type2_update::Type2Update;
use tag::Fault;
use type2::container;

// Judges a list that is to write the message to the tag. The list is the bytes of its commands, laid end to end.
// Each type has its own: the longest images differ, and Type 3's call takes an IDm.
pub fn judge(image: &[u8], message: &[u8], list: &[u8]) -> Result<usize, Fault>
    ensures { Judged type2 image.now message.now list.now result }
{
    let mut table = [0; container::LONGEST_IMAGE];
    let update = Type2Update::new(image, message, &mut table)?;
    let mut work = [0u8; container::LONGEST_IMAGE];
    lists::judge_update(&update, list, &mut work)
}
