// The walk to the message TLV.

ghost use Rattle.std.specs.Prelude.{◌≡◌, ◌-◌, ◌≤◌, length};
ghost use Rattle.tlv.specs.Walk.{kind_of, step_at, find};
ghost use Rattle.tlv.specs.Views.Walks.{ahead, rule_of, Within, TakenPlaced};
ghost use Rattle.tlv.specs.Views.Finding.{TypeTaken, stepped_as, TypePlaced, found_as, FoundPlaced};

use crate::area::Control;
use crate::table;
use crate::walk::Walk;
use tag::{Address, Refusal};

// A step of the walk: a TLV passed, or the message TLV, by its type byte's address and the walk past that byte.
#[derive(Clone, Copy, Debug, PartialEq, Eq)]
// No Result: neither case is a refusal, and a walk goes on from both.
pub enum Step {
    On(Walk),
    Message(Address, Walk),
}

impl Walk {
    // Passes the TLV whose type byte `byte` was just taken from `place`, unless it is the message TLV.
    // Six arguments: what `take_type` gave, and the walk's own.
    fn pass_by_type(
        self,
        first: Address,
        byte: u8,
        place: Address,
        image: &[u8],
        table: &mut [u16],
    ) -> Result<Step, Refusal>
        requires { (self.end.0 ≤ length image.now) × Within table.old self }
        ensures is { stepped_as table.new result ≡ step_at (rule_of image.now first) (kind_of byte) image.now place.0 (ahead table.old self) }
        ensures placed { TypePlaced table.old table.new self place.0 result }
    {
        match byte {
            0x00 => Ok(Step::On(self)),
            0x01 => self
                .pass_control(first, Control::Lock, image, table)
                .map(Step::On),
            0x02 => self
                .pass_control(first, Control::Memory, image, table)
                .map(Step::On),
            0x03 => Ok(Step::Message(place, self)),
            0xFE => Err(Refusal::NoMessageTlv),
            _ => self.pass_other(image, table).map(Step::On),
        }
    }

    // The next usable byte other than 00h, as `take_byte` gives it. The NULL TLVs before it are passed here and not step by step: unused
    // space is full of them, and this loop hands no walk on.
    fn take_type(self, image: &[u8], table: &[u16]) -> Option<(u8, Address, Walk)>
        requires { (self.end.0 ≤ length image.now) × Within table.now self }
        ensures is { TypeTaken image.now table.now self result }
        ensures placed { TakenPlaced table.now self result }
    {
        let mut at = table::next_usable(table, self.at, self.end);
        while at.0 < self.end.0 {
            let byte = image[at.0];
            let next = Address(at.0 + 1);
            if byte != 0x00 {
                return Some((byte, at, self.moved_to(next)));
            }
            at = table::next_usable(table, next, self.end);
        }
        None
    }

    // The walk to the message TLV: its type byte's address, and the walk past that byte. `first`, the data area's first address, is
    // for the rule that says which areas are allowed. It is an argument, not a field of `Walk`: every step would return the field,
    // and that took a third more time on a tag of NULL TLVs.
    pub fn find_message(
        self,
        first: Address,
        image: &[u8],
        table: &mut [u16],
    ) -> Result<(Address, Walk), Refusal>
        requires { (self.end.0 ≤ length image.now) × Within table.old self }
        ensures is { found_as table.new result ≡ find (rule_of image.now first) (self.end.0 - self.at.0) image.now (ahead table.old self) }
        ensures placed { FoundPlaced table.old table.new self result }
    {
        let mut walk = self;
        while let Some((byte, place, past)) = walk.take_type(image, table) {
            match past.pass_by_type(first, byte, place, image, table)? {
                Step::On(next) => walk = next,
                Step::Message(place, next) => return Ok((place, next)),
            }
        }
        Err(Refusal::NoMessageTlv)
    }
}
