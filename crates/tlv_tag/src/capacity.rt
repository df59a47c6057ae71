// How long a message may be on a tag that has a TLV area.

ghost use Rattle.std.specs.Prelude.{◌≡◌, ◌<◌, length};
ghost use Rattle.tlv.specs.Views.Walks.{ahead, Within};
ghost use Rattle.tlv_tag.specs.Message.{capacity_in};

use crate::read::Located;
use tlv_value::value;

// The greatest length that fits, with its length field, in `u` usable bytes. A length up to 254 takes one byte, any other three.
#[tactic(auto, unfolding(crate::specs::Message::capacity_in))]
fn capacity_in(u: usize) -> usize
    requires { 0 < u }
    ensures { result ≡ capacity_in u }
{
    match u {
        ..=254 => u - 1,
        255..=257 => 254,
        _ => u - 3,
    }
}

impl Located {
    // The greatest length that fits. Reading reports it, and writing refuses what is longer. Where areas are declared, it takes a sweep
    // over the skip table.
    pub fn capacity(self, table: &[u16]) -> usize
        requires { Within table.now self.field × (0 < length (ahead table.now self.field)) }
        ensures { result ≡ capacity_in (length (ahead table.now self.field)) }
    {
        capacity_in(value::count(self.field, table))
    }
}
