// Length fields, and values passed over.

ghost use Rattle.std.specs.Prelude.{◌≡◌, ◌≤◌, length};
ghost use Rattle.tlv.specs.Walk.{len, long_of, length_of, pass_value};
ghost use Rattle.tlv.specs.Views.Walks.{ahead, Within, InTable};
ghost use Rattle.tlv.specs.Views.Passing.{field_as, FieldMoved, FieldPlaced, passed_as, PassedPlaced};

use crate::walk::Walk;
use tag::{Address, Refusal};

impl Walk {
    // The number in the two bytes after FFh, high first: 255 to 65,534. And the walk past them.
    #[tactic(auto, unfolding(crate::specs::Walk::long_by))]
    fn take_long(self, image: &[u8], table: &[u16]) -> Option<(usize, Walk)>
        requires { (self.end.0 ≤ length image.now) × InTable table.now self }
        ensures is { field_as table.now result ≡ long_of image.now (ahead table.now self) }
        ensures moved { FieldMoved self result }
        ensures placed { Within table.now self → FieldPlaced table.now self result }
    {
        let (high, _, walk) = self.take_byte(image, table)?;
        let (low, _, walk) = walk.take_byte(image, table)?;
        let n = usize::from(u16::from_be_bytes([high, low]));
        if n < 255 || 65534 < n {
            return None;
        }
        Some((n, walk))
    }

    // The number in a length field, one byte 00h to FEh or three, and the walk past it. None: a bad field.
    #[tactic(auto, unfolding(crate::specs::Walk::length_by))]
    pub fn take_length(self, image: &[u8], table: &[u16]) -> Option<(usize, Walk)>
        requires { (self.end.0 ≤ length image.now) × InTable table.now self }
        ensures is { field_as table.now result ≡ length_of image.now (ahead table.now self) }
        ensures moved { FieldMoved self result }
        ensures placed { Within table.now self → FieldPlaced table.now self result }
    {
        let (byte, _, walk) = self.take_byte(image, table)?;
        if byte == 0xFF {
            return walk.take_long(image, table);
        }
        Some((usize::from(byte), walk))
    }

    // Passes over the next `n` usable bytes.
    #[tactic(auto, unfolding(crate::specs::Walk::pass_value))]
    pub(crate) fn pass_value(self, n: usize, table: &[u16]) -> Result<Walk, Refusal>
        requires { Within table.now self }
        ensures is { passed_as table.now result ≡ pass_value (len n (ahead table.now self)) }
        ensures placed { PassedPlaced table.now table.now 0 self result }
    {
        if n == 0 {
            return Ok(self);
        }
        let last = self.nth(n - 1, table);
        if last == self.end {
            return Err(Refusal::BadLength);
        }
        Ok(self.moved_to(Address(last.0 + 1)))
    }

    // Passes a TLV of another type, after its type byte: its length and its value.
    #[tactic(auto, unfolding(crate::specs::Walk::pass_value))]
    pub fn pass_other(self, image: &[u8], table: &[u16]) -> Result<Walk, Refusal>
        requires { (self.end.0 ≤ length image.now) × Within table.now self }
        ensures is { passed_as table.now result ≡ pass_value (length_of image.now (ahead table.now self)) }
        ensures placed { PassedPlaced table.now table.now 0 self result }
    {
        let (n, walk) = self.take_length(image, table).ok_or(Refusal::BadLength)?;
        walk.pass_value(n, table)
    }
}
