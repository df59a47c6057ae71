// A Type 3 tag that reads, and a message that may be written to it.

ghost use Rattle.std.specs.Prelude.{◌≡◌, length, MatchResult};
ghost use Rattle.tag.specs.TagType.{refused_write, written, writing};
ghost use Rattle.tag.specs.Answers.{number_of};
ghost use Rattle.type3.specs.Type3.{type3};
ghost use Rattle.type3.specs.Update.{plan};
ghost use Rattle.type3.specs.Views.AttributeInformation.{Readable};

use tag::{Refusal, Report};
use type3::read::AttributeInformation;
use type3::{read, space};
use update::Update;

// The IDm is the one that the caller states.
#[derive(Clone, Copy, Debug)]
pub struct Type3Update<'a> {
    image: &'a [u8],
    message: &'a [u8],
    idm: &'a [u8; 8],
    information: AttributeInformation,
    ghost readable: { Readable image.now information },
    ghost planned: { writing (type3 idm.now) image.now message.now ≡ written (plan image.now message.now) },
    ghost eight: { length idm.now ≡ 8 },
}

impl<'a> Type3Update<'a> {
    // Refusals 1 to 11, as writing gives them.
    pub fn new(
        image: &'a [u8],
        message: &'a [u8],
        idm: &'a [u8; 8],
    ) -> Result<Type3Update<'a>, Refusal>
        ensures { MatchResult result (λ u. (u.image.now ≡ image.now) × (u.message.now ≡ message.now) × (u.idm.now ≡ idm.now)) (λ e. writing (type3 idm.now) image.now message.now ≡ refused_write (number_of e)) }
    {
        let information = read::attribute_information(image)?;
        space::check(information, message.len())?;
        Ok(Type3Update {
            image,
            message,
            idm,
            information,
        })
    }
}

impl Update for Type3Update<'_> {
    ghost use Rattle.std.proofs.Common.{rules};
    ghost use Rattle.tag.proofs.Laws.{written-ready};
    ghost use Rattle.tag.proofs.Logic.{true-false};
    ghost use Rattle.type3.proofs.Laws.{type3-laws};
    ghost use Rattle.type3.proofs.Holding.{plain};

    ghost tag_type = { λ u. type3 u.idm.now };

    ghost image = { λ u. u.image.now };

    ghost message = { λ u. u.message.now };

    ghost laws = { λ u. type3-laws u.idm.now u.eight };

    ghost ready = { λ u. (written-ready (type3 u.idm.now) u.image.now u.message.now (plan u.image.now u.message.now) u.planned).0 };

    // a law is given a term; the search finds this one
    ghost some_bytes = { Prim.search rules };

    // no message of a Type 3 tag is interrupted
    ghost fits = { λ u i p e q. absurd (true-false q (plain i p e)) };

    fn image(&self) -> &[u8] {
        self.image
    }

    fn message(&self) -> &[u8] {
        self.message
    }

    fn span(&self, list: &[u8]) -> usize {
        type3_commands::commands::span(list)
    }

    fn take_command(&self, command: &[u8], work: &mut [u8]) -> bool {
        let AttributeInformation { nbw, nmaxb, .. } = self.information;
        type3_model::model::take_command(work, self.idm, command, nbw, nmaxb)
    }

    fn is_kept(&self, work: &[u8]) -> bool {
        type3::kept::is_kept(self.image, work, self.message.len())
    }

    fn read(&self, work: &[u8], _gathered: &mut [u8]) -> Result<Report, Refusal> {
        type3::read::read(work)
    }
}
