// What a list is made from, on a tag that has a TLV area: the new image and the address of the first length byte. So a writer needs
// no walk.

ghost use Rattle.std.specs.Prelude.{◌≡◌, length};
ghost use Rattle.tlv.specs.Views.Counted.{Declared};
ghost use Rattle.tlv_tag.specs.Views.Space.{space_of};
ghost use Rattle.tlv_tag.specs.Views.BlankArea.{BlankArea};
ghost use Rattle.tlv_tag.specs.Views.Reading.{area_located};
ghost use Rattle.tlv_tag.specs.Views.Update.{PreparedIn, LeftAlone};

use crate::{space, update};
use tag::{Address, Refusal};
use tlv::table;

// Finds the space in the data area from `first` up to `end`, with refusals 6 to 11, and prepares the list for it: makes the new
// image, and returns the address of the first length byte.
#[tactic(auto, using(crate::proofs::Preparing::first_usable))]
// Three arguments for the area: the type's container gives `end` and `writable`, and `first` is its constant.
pub fn prepare(
    image: &[u8],
    message: &[u8],
    first: Address,
    end: Address,
    writable: bool,
    table: &mut [u16],
    new: &mut [u8],
) -> Result<Address, Refusal>
    requires { BlankArea image.now table.old first.0 end.0 × (length new.old ≡ length image.now) }
    ensures prepared { PreparedIn (space_of writable (length message.now) (area_located image.now first.0 end.0)) image.now message.now new.new result }
    ensures refused { LeftAlone new.old new.new result }
    ensures table { Declared first.0 end.0 table.old table.new }
{
    let walk = space::find_space(image, message.len(), table, first, end, writable)?;
    new.copy_from_slice(image);
    update::set_tlv_bytes(walk, message, table, new);
    Ok(table::next_usable(table, walk.at, walk.end))
}
