// Where the bytes to set lie on a tag with a TLV area, and whether a tag keeps the others.

ghost use Rattle.std.specs.Prelude.{◌≡◌, not, ◌≤◌, ◌-◌, eqb, length};
ghost use Rattle.tag.specs.Bytes.{byte, run};
ghost use Rattle.tag.specs.Judge.{equal_at};
ghost use Rattle.tlv.specs.Views.Table.{usable_in};
ghost use Rattle.tlv.specs.Views.Walks.{ahead, Within};
ghost use Rattle.tlv_tag.specs.Views.Kept.{Bounded, Extends};

pub use crate::extent::Extent;
use crate::update;
use tag::{Address, kept};
use tlv::table;
use tlv::walk::Walk;

// The extent of the bytes to set for a message of `n` bytes that goes to the walk's place.
#[tactic(auto, using(crate::proofs::Keeping::set_below))]
// `n ≤ 65534` is a clause: a message's length is a slice's, and the slice's type bounds it by no such number.
pub fn extent_of(walk: Walk, n: usize, table: &[u16]) -> Extent
    requires { Within table.now walk × (n ≤ 65534) }
    ensures extends { Extends table.now (ahead table.now walk) n result }
    ensures bounded { Bounded table.now walk.end.0 result }
{
    let stop = walk.nth(update::tlv_bytes_length(n), table);
    Extent {
        first: walk.at,
        stop,
        skips: !table::none_skipped(table, walk.at, stop),
    }
}

// Whether one of the skipped bytes of the extent has changed. The loop goes by index and has no early exit, so a compiler treats many
// addresses at once; a chain over the three slices takes many times as long.
fn skipped_changed(image: &[u8], work: &[u8], table: &[u16], extent: Extent) -> bool
    requires { (extent.first.0 ≤ extent.stop.0) × (extent.stop.0 ≤ length image.now) × (extent.stop.0 ≤ length work.now) × (extent.stop.0 ≤ length table.now) }
    ensures { result ≡ not (equal_at (λ a. not (eqb (byte table.now a) 0)) image.now work.now (run extent.first.0 (extent.stop.0 - extent.first.0))) }
{
    let mut changed = false;
    for k in extent.first.0..extent.stop.0 {
        changed |= (table[k] != 0) & (work[k] != image[k]);
    }
    changed
}

// Whether the tag `work` has the bytes of `image`, apart from those to set.
// Two slices of one length: one is written after each command, the other is the tag handed in.
pub fn is_kept(image: &[u8], work: &[u8], table: &[u16], extent: Extent) -> bool
    requires { Bounded table.now (length image.now) extent × (length work.now ≡ length image.now) }
    ensures { result ≡ equal_at (λ a. not (usable_in table.now extent.first.0 extent.stop.0 a)) image.now work.now (run 0 (length image.now)) }
{
    kept::is_kept_outside(image, work, extent.first, extent.stop)
        && !(extent.skips && skipped_changed(image, work, table, extent))
}
