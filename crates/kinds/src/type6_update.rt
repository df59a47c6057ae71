// A Type 6 tag that reads, and a message that may be written to it.

ghost use Rattle.std.specs.Prelude.{◌≡◌, MatchResult};
ghost use Rattle.tag.specs.TagType.{refused_write, written, writing};
ghost use Rattle.tag.specs.Answers.{number_of};
ghost use Rattle.type6.specs.Type6.{type6};
ghost use Rattle.type6.specs.Views.Container.{Readable};

use tag::{Refusal, Report};
use type6::container::Container;
use type6::{container, space};
use update::Update;

#[derive(Clone, Copy, Debug)]
pub struct Type6Update<'a> {
    image: &'a [u8],
    message: &'a [u8],
    container: Container,
    ghost readable: { Readable image.now container },
    ghost planned: { writing type6 image.now message.now ≡ written (type6.plan image.now message.now) },
}

impl<'a> Type6Update<'a> {
    // Refusals 1 to 11 and 14, as writing gives them.
    pub fn new(image: &'a [u8], message: &'a [u8]) -> Result<Type6Update<'a>, Refusal>
        ensures { MatchResult result (λ u. (u.image.now ≡ image.now) × (u.message.now ≡ message.now)) (λ e. writing type6 image.now message.now ≡ refused_write (number_of e)) }
    {
        let container = container::read_container(image)?;
        space::check(container, message.len())?;
        Ok(Type6Update {
            image,
            message,
            container,
        })
    }
}

impl Update for Type6Update<'_> {
    ghost use Rattle.std.proofs.Common.{rules};
    ghost use Rattle.tag.proofs.Laws.{written-ready};
    ghost use Rattle.tag.proofs.Logic.{true-false};
    ghost use Rattle.type6.proofs.Laws.{type6-laws};
    ghost use Rattle.type6.proofs.Holding.{plain};

    ghost tag_type = { λ u. type6 };

    ghost image = { λ u. u.image.now };

    ghost message = { λ u. u.message.now };

    ghost laws = { λ u. type6-laws };

    ghost ready = { λ u. (written-ready type6 u.image.now u.message.now (type6.plan u.image.now u.message.now) u.planned).0 };

    // A law is given a term; the search finds this one.
    ghost some_bytes = { Prim.search rules };

    // no message of a Type 6 tag is interrupted
    ghost fits = { λ u i p e q. absurd (true-false q (plain i p e)) };

    fn image(&self) -> &[u8] {
        self.image
    }

    fn message(&self) -> &[u8] {
        self.message
    }

    fn span(&self, _list: &[u8]) -> usize {
        type6::commands::DATA + self.container.size
    }

    fn take_command(&self, command: &[u8], work: &mut [u8]) -> bool {
        type6::model::take_command(work, command, self.container.size, self.container.blocks)
    }

    fn is_kept(&self, work: &[u8]) -> bool {
        type6::kept::is_kept(self.image, work, self.container.size, self.message.len())
    }

    fn read(&self, work: &[u8], _gathered: &mut [u8]) -> Result<Report, Refusal> {
        type6::read::read(work)
    }
}
