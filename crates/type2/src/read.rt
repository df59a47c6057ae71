// Reading a Type 2 tag: the answer, and the part shown. Each public function makes a skip table of its own.

ghost use Rattle.std.specs.Prelude.{◌≡◌, replicate};
ghost use Rattle.tag.specs.PublicContracts.{Read, Showed};
ghost use Rattle.tag.specs.Views.Held.{with_capacity};
ghost use Rattle.tlv_tag.specs.Message.{locate};
ghost use Rattle.type2.specs.Memory.{memory};
ghost use Rattle.type2.specs.Type2.{type2};
ghost use Rattle.type2.specs.Views.Reading.{located_as, LocatedHere};

use crate::container;
use tag::{Address, Refusal, Report, slices};
use tlv_tag::read::Located;

// The message TLV, and whether the tag is writable; or one of the refusals 1 to 8, in this order. The skip table passed in
// is all zeros.
#[tactic(auto, using(crate::proofs::Reading::by_container))]
// A pair: `Located` is any tag's with a TLV area, and this type's container says whether it is writable.
pub(crate) fn locate(image: &[u8], table: &mut [u16]) -> Result<(Located, bool), Refusal>
    requires { table.old ≡ replicate 1024 0 }
    ensures is { located_as table.new result ≡ locate memory image.now }
    ensures here { LocatedHere image.now table.new result }
{
    let area = container::data_area(image)?;
    let located = tlv_tag::read::locate(image, table, Address(container::FIRST), area.end)?;
    Ok((located, area.writable))
}

// What the tag reads as. An interrupted message is gathered into the front of `gathered`.
#[tactic(auto, using(crate::proofs::Reading::by_location))]
pub fn read(image: &[u8], gathered: &mut [u8]) -> Result<Report, Refusal>
    ensures { Read type2.reading image.now gathered.old result gathered.new }
{
    let mut table = [0; container::LONGEST_IMAGE];
    let (located, writable) = locate(image, &mut table)?;
    let capacity = located.capacity(&table);
    located.report(image, &table, gathered, writable, capacity)
}

// What the tag holds, for the judge: the same answer, but the capacity is 0. Were it counted after each command, the judge of a large
// tag that declares an area would take 1.6 times as long.
#[tactic(auto, using(crate::proofs::Reading::by_location))]
pub fn read_held(image: &[u8], gathered: &mut [u8]) -> Result<Report, Refusal>
    ensures { Read (λ i. with_capacity 0 (type2.reading i)) image.now gathered.old result gathered.new }
{
    let mut table = [0; container::LONGEST_IMAGE];
    let (located, writable) = locate(image, &mut table)?;
    located.report(image, &table, gathered, writable, 0)
}

// The part shown after `read` has answered: a part of the image or, if the message is interrupted, of the gathered copy. It is
// empty without a message, after a refusal, and if the answer's numbers do not fit.
// Each type has its own, so that a caller finds it beside `read` (docs/PROMISES.md names it).
pub fn shown<'a>(image: &'a [u8], gathered: &'a [u8], answer: Result<Report, Refusal>) -> &'a [u8]
    ensures { Showed image.now gathered.now answer result.now }
{
    slices::shown(image, gathered, answer)
}
