// Room for a message on a Type 6 tag: refusals 9, 10, 14 and 11.

ghost use Rattle.std.specs.Prelude.{◌≡◌};
ghost use Rattle.tag.specs.Checks.{first_of};
ghost use Rattle.type6.specs.Views.Space.{tested_as, space_checks};

use crate::container;
use crate::container::Container;
use tag::Refusal;

// Refusals 9, 10, 14 and 11, in this order, for a message of `n` bytes.
// Each type tests for itself: Type 6 has 14 in between, and Type 2 counts its capacity last.
pub fn check(container: Container, n: usize) -> Result<(), Refusal>
    ensures { tested_as result ≡ first_of (space_checks container n) }
{
    if n == 0 {
        return Err(Refusal::EmptyMessage);
    }
    if !container.writable {
        return Err(Refusal::NotWritable);
    }
    if container.size < container::NLEN {
        return Err(Refusal::BlockTooSmall);
    }
    if container.capacity < n {
        return Err(Refusal::MessageTooLong);
    }
    Ok(())
}
