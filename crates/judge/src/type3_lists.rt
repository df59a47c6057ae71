// The judge of Type 3 lists. It gives refusals 1 to 11 as writing does and then judges the list.

ghost use Rattle.tag.specs.PublicContracts.{Judged};
ghost use Rattle.type3.specs.Type3.{type3};

use crate::lists;
use kinds::type3_update::Type3Update;
use tag::Fault;
use type3::read;

// Judges a list that is to write the message to the tag. The list is the bytes of its commands, laid end to end.
// Each type has its own: the longest images differ, and Type 3's call takes an IDm.
pub fn judge(image: &[u8], message: &[u8], idm: &[u8; 8], list: &[u8]) -> Result<usize, Fault>
    ensures { Judged (type3 idm.now) image.now message.now list.now result }
{
    let update = Type3Update::new(image, message, idm)?;
    let mut work = [0u8; read::LONGEST_IMAGE];
    lists::judge_update(&update, list, &mut work)
}
