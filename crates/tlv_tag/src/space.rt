// Where a message goes on a tag that has a TLV area: refusals 6 to 11.

ghost use Rattle.std.specs.Prelude.{◌≡◌};
ghost use Rattle.tlv.specs.Views.Counted.{Declared};
ghost use Rattle.tlv_tag.specs.Views.Space.{space_of, space_as, SpacePlaced};
ghost use Rattle.tlv_tag.specs.Views.BlankArea.{BlankArea};
ghost use Rattle.tlv_tag.specs.Views.Reading.{area_located};

use crate::read;
use tag::{Address, Refusal};
use tlv::walk::Walk;

// The space for a message of `n` bytes in the data area from `first` up to `end`: the walk past the message TLV's type byte, where
// the message with its length has room.
#[tactic(auto, using(crate::proofs::Fitting::room))]
// Three arguments for the area, as in `prepare`.
// Each type of tag tests for itself: Type 6 has 14 in between, and here the capacity is counted last.
pub fn find_space(
    image: &[u8],
    n: usize,
    table: &mut [u16],
    first: Address,
    end: Address,
    writable: bool,
) -> Result<Walk, Refusal>
    requires { BlankArea image.now table.old first.0 end.0 }
    ensures is { space_as table.new result ≡ space_of writable n (area_located image.now first.0 end.0) }
    ensures placed { SpacePlaced image.now table.new n first.0 end.0 result }
    ensures table { Declared first.0 end.0 table.old table.new }
{
    let located = read::locate(image, table, first, end)?;
    if n == 0 {
        return Err(Refusal::EmptyMessage);
    }
    if !writable {
        return Err(Refusal::NotWritable);
    }
    if located.capacity(table) < n {
        return Err(Refusal::MessageTooLong);
    }
    Ok(located.field)
}
