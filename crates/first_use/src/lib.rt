// A first use of the library: asks whether a Type 2 tag holds a message.

#![tactic(auto)]

ghost use Rattle.std.specs.Prelude.{◌≡◌};
ghost use Rattle.tag.specs.TagType.{held};
ghost use Rattle.tag.specs.Judge.{holds_as};
ghost use Rattle.type2.specs.Type2.{type2};

use tag::holding;
use type2::{container, read};

// Whether the tag holds just this message.
pub fn holds(image: &[u8], message: &[u8]) -> bool
    ensures { result ≡ holds_as (held type2 image.now) message.now }
{
    let mut gathered = [0u8; container::LONGEST_IMAGE];
    let answer = read::read(image, &mut gathered);
    let shown = read::shown(image, &gathered, answer);
    holding::holds(answer, shown, message)
}
