// A Type 2 tag that reads, and a message that may be written to it.

ghost use Rattle.std.specs.Prelude.{◌≡◌, ◌≤◌, length, replicate, MatchResult};
ghost use Rattle.tag.specs.TagType.{refused_write, written, writing};
ghost use Rattle.tag.specs.Answers.{number_of};
ghost use Rattle.type2.specs.Type2.{type2};
ghost use Rattle.type2.specs.Views.Kept.{Covered};

use tag::{Address, Refusal, Report};
use tlv_tag::kept::Extent;
use tlv_tag::{kept, space};
use type2::container;
use update::Update;

// The skip table and the extent say where the bytes to set lie.
#[derive(Clone, Copy)]
pub struct Type2Update<'a> {
    image: &'a [u8],
    message: &'a [u8],
    table: &'a [u16],
    extent: Extent,
    ghost covered: { Covered image.now message.now table.now extent },
    ghost planned: { writing type2 image.now message.now ≡ written (type2.plan image.now message.now) },
    ghost short: { length image.now ≤ 1024 },
}

impl<'a> Type2Update<'a> {
    // Refusals 1 to 11, as writing gives them. The skip table is all zeros.
    pub fn new(
        image: &'a [u8],
        message: &'a [u8],
        table: &'a mut [u16],
    ) -> Result<Type2Update<'a>, Refusal>
        requires { table.old ≡ replicate 1024 0 }
        ensures { MatchResult result (λ u. (u.image.now ≡ image.now) × (u.message.now ≡ message.now)) (λ e. writing type2 image.now message.now ≡ refused_write (number_of e)) }
    {
        let area = container::data_area(image)?;
        let walk = space::find_space(
            image,
            message.len(),
            table,
            Address(container::FIRST),
            area.end,
            area.writable,
        )?;
        let extent = kept::extent_of(walk, message.len(), table);
        Ok(Type2Update {
            image,
            message,
            table,
            extent,
        })
    }
}

impl Update for Type2Update<'_> {
    ghost use Rattle.std.proofs.Common.{rules};
    ghost use Rattle.tag.proofs.Laws.{written-ready};
    ghost use Rattle.type2.proofs.Laws.{type2-laws};
    ghost use Rattle.type2.proofs.Holding.{fits-gathering};

    ghost tag_type = { λ u. type2 };

    ghost image = { λ u. u.image.now };

    ghost message = { λ u. u.message.now };

    ghost laws = { λ u. type2-laws };

    ghost ready = { λ u. (written-ready type2 u.image.now u.message.now (type2.plan u.image.now u.message.now) u.planned).0 };

    // a law is given a term; the search finds this one
    ghost some_bytes = { Prim.search rules };

    ghost fits = { λ u i p e q. fits-gathering i p e };

    fn image(&self) -> &[u8] {
        self.image
    }

    fn message(&self) -> &[u8] {
        self.message
    }

    fn span(&self, _list: &[u8]) -> usize {
        type2::commands::LENGTH
    }

    fn take_command(&self, command: &[u8], work: &mut [u8]) -> bool {
        type2::model::take_command(work, command)
    }

    fn is_kept(&self, work: &[u8]) -> bool {
        tlv_tag::kept::is_kept(self.image, work, self.table, self.extent)
    }

    fn read(&self, work: &[u8], gathered: &mut [u8]) -> Result<Report, Refusal> {
        type2::read::read(work, gathered)
    }

    fn read_again(&self, work: &[u8], gathered: &mut [u8]) -> Result<Report, Refusal> {
        type2::read::read_held(work, gathered)
    }
}
