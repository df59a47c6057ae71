// Control TLVs: each declares an area, and everything after the TLV skips the area's addresses.

ghost use Rattle.std.specs.Prelude.{◌≡◌, ◌<◌, ◌≤◌, length};
ghost use Rattle.tlv.specs.Areas.{without};
ghost use Rattle.tlv.specs.Walk.{control_value, pass_control};
ghost use Rattle.tlv.specs.Views.Walks.{ahead, rule_of, Within, Onward};
ghost use Rattle.tlv.specs.Views.Areas.{control_as, area_as};
ghost use Rattle.tlv.specs.Views.Passing.{passed_as, PassedPlaced};

use crate::area::{Area, Control};
use crate::table;
use crate::walk::Walk;
use tag::{Address, Refusal};

impl Walk {
    // Skips, from here on, the area's addresses that are still to come, and counts one area more. The part past the data area's end
    // is cut off first, so the end fits into a table entry.
    pub(crate) fn skip_area(self, area: Area, table: &mut [u16]) -> Walk
        requires { Within table.old self × (self.areas < self.at.0) }
        ensures is { ahead table.new result ≡ without (area_as area) (ahead table.old self) }
        ensures placed { Onward table.old table.new 1 self result }
        ensures stays { result.at.0 ≡ self.at.0 }
    {
        let from = area.start.max(self.at);
        let to = Address(area.start.0 + area.size).min(self.end);
        table::skip(table, from, to);
        Walk {
            areas: self.areas + 1,
            ..self
        }
    }

    // Passes a control TLV's value, and skips the area that it declares.
    #[tactic(auto, unfolding(crate::specs::Walk::area_by))]
    fn pass_control_value(
        self,
        first: Address,
        kind: Control,
        image: &[u8],
        table: &mut [u16],
    ) -> Result<Walk, Refusal>
        requires { (self.end.0 ≤ length image.now) × Within table.old self }
        ensures is { passed_as table.new result ≡ control_value (rule_of image.now first) (control_as kind) image.now (ahead table.old self) }
        ensures placed { PassedPlaced table.old table.new 1 self result }
    {
        let (place, _, walk) = self.take_byte(image, table).ok_or(Refusal::BadLength)?;
        let (size, _, walk) = walk.take_byte(image, table).ok_or(Refusal::BadLength)?;
        let (last, _, walk) = walk.take_byte(image, table).ok_or(Refusal::BadLength)?;
        if kind.is_reserved(last) {
            return Err(Refusal::BadControlTlv);
        }
        let declared = kind.area_of(place, size, last);
        if !declared.allowed(first, image.len()) {
            return Err(Refusal::BadControlTlv);
        }
        Ok(walk.skip_area(declared, table))
    }

    // Passes a control TLV, after its type byte.
    #[tactic(auto, unfolding(crate::specs::Walk::control_by))]
    pub(crate) fn pass_control(
        self,
        first: Address,
        kind: Control,
        image: &[u8],
        table: &mut [u16],
    ) -> Result<Walk, Refusal>
        requires { (self.end.0 ≤ length image.now) × Within table.old self }
        ensures is { passed_as table.new result ≡ pass_control (rule_of image.now first) (control_as kind) image.now (ahead table.old self) }
        ensures placed { PassedPlaced table.old table.new 1 self result }
    {
        let (length, _, walk) = self.take_byte(image, table).ok_or(Refusal::BadLength)?;
        if length != 3 {
            return Err(Refusal::BadControlTlv);
        }
        walk.pass_control_value(first, kind, image, table)
    }
}
