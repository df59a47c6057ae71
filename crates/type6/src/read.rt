// Reading a Type 6 tag.

ghost use Rattle.std.specs.Prelude.{◌≡◌, [], ◌<◌};
ghost use Rattle.tag.specs.Answers.{read_as};
ghost use Rattle.tag.specs.PublicContracts.{Read, Showed};
ghost use Rattle.type6.specs.Message.{reading};
ghost use Rattle.type6.specs.Views.Container.{answer_for};

use crate::container;
use crate::container::Container;
use tag::{Address, Content, Refusal, Report, slices};

impl Container {
    // What the container and NLEN say of a message, and of the room for one.
    // Each type has its own: only Type 3 can be being written.
    fn report(self) -> Report
        requires { self.file.0 < 40 }
        ensures { read_as (Ok result) ≡ answer_for self }
    {
        let content = if self.nlen == 0 {
            Content::Empty
        } else {
            Content::Message {
                address: Address(self.file.0 + container::NLEN),
                length: self.nlen,
                interrupted: false,
            }
        };
        Report {
            content,
            writable: self.writable,
            capacity: self.capacity,
        }
    }
}

// Reads a tag. A Type 6 message is never interrupted, so there is nothing to gather.
pub fn read(image: &[u8]) -> Result<Report, Refusal>
    ensures { Read reading image.now [] result [] }
{
    let container = container::read_container(image)?;
    Ok(container.report())
}

// The message as a part of the image. It is empty without a message, after a refusal, if the answer's numbers do not fit, and if
// the answer claims that the message is interrupted.
// Each type has its own, so that a caller finds it beside read (docs/PROMISES.md names it).
pub fn shown(image: &[u8], answer: Result<Report, Refusal>) -> &[u8]
    ensures { Showed image.now [] answer result.now }
{
    slices::shown(image, &[], answer)
}
