// Room for a message on a Type 3 tag: refusals 9 to 11, and how many blocks the message takes.

ghost use Rattle.std.specs.Prelude.{◌≡◌};
ghost use Rattle.tag.specs.Checks.{first_of};
ghost use Rattle.type3.specs.Update.{blocks_for};
ghost use Rattle.type3.specs.Views.AttributeInformation.{checked_as};
ghost use Rattle.type3.specs.Views.Space.{space_checks};

use crate::read;
use crate::read::AttributeInformation;
use tag::Refusal;

// How many blocks a message of `n` bytes takes; the last may be filled in part.
pub fn blocks_for(n: usize) -> usize
    ensures { result ≡ blocks_for n }
{
    n.div_ceil(read::BLOCK_SIZE)
}

// Refusals 9, 10 and 11, in this order, for a message of `n` bytes that is to be written to blocks from 1 on.
// Each type tests for itself: Type 6 has 14 in between, and Type 2 counts its capacity last.
pub fn check(information: AttributeInformation, n: usize) -> Result<(), Refusal>
    ensures { checked_as result ≡ first_of (space_checks information n) }
{
    if n == 0 {
        return Err(Refusal::EmptyMessage);
    }
    if !information.writable {
        return Err(Refusal::NotWritable);
    }
    if information.nmaxb < blocks_for(n) {
        return Err(Refusal::MessageTooLong);
    }
    Ok(())
}
