// The walk over the TLVs of a data area. Each method takes the place reached by value and hands it back moved on.
//
// Image and table are arguments: each step copies a `Walk`, and a table that is written can't be a field of it.
// Which table goes with the walk is a clause, `Within`, or `InTable` where it does not matter how many areas the walk has counted: the
// table changes, and the walk is copied.

ghost use Rattle.std.specs.Prelude.{◌≡◌, ◌-◌, ◌≤◌, length, get_or};
ghost use Rattle.tlv.specs.Walk.{take_byte};

use crate::table;
use tag::Address;

// The place reached: the next address to look at, the data area's end, and how many areas were declared on the way.
#[derive(Clone, Copy, Debug, PartialEq, Eq)]
pub struct Walk {
    pub at: Address,
    pub end: Address,
    pub areas: usize,
}

impl Walk {
    ghost use Rattle.tlv.specs.Views.Table.{none_skipped};
    ghost use Rattle.tlv.specs.Views.Walks.{ahead, Within, InTable, taken_as, TakenMoved, TakenPlaced};

    // The walk over the data area from `first` up to `end`, before its first byte.
    pub fn new(first: Address, end: Address) -> Walk
        ensures { (result.at.0 ≡ first.0) × (result.end.0 ≡ end.0) × (result.areas ≡ 0) }
    {
        Walk {
            at: first,
            end,
            areas: 0,
        }
    }

    // The walk moved on to `at`.
    pub fn moved_to(self, at: Address) -> Walk
        requires { (self.at.0 ≤ at.0) × (at.0 ≤ self.end.0) }
        ensures { (result.at.0 ≡ at.0) × (result.end.0 ≡ self.end.0) × (result.areas ≡ self.areas) }
    {
        Walk { at, ..self }
    }

    // The next usable byte: its value, its address, and the walk past it; or none is left.
    pub(crate) fn take_byte(self, image: &[u8], table: &[u16]) -> Option<(u8, Address, Walk)>
        requires { (self.end.0 ≤ length image.now) × InTable table.now self }
        ensures is { taken_as table.now result ≡ take_byte image.now (ahead table.now self) }
        ensures moved { TakenMoved self result }
        ensures placed { Within table.now self → TakenPlaced table.now self result }
    {
        let place = table::next_usable(table, self.at, self.end);
        if place == self.end {
            return None;
        }
        Some((image[place.0], place, self.moved_to(Address(place.0 + 1))))
    }

    // Whether the next `n` addresses are all usable. Without areas nothing is skipped. With some, mostly nothing is skipped on the way,
    // and one sweep over them is quicker than going from each usable address to the next.
    pub fn is_free(self, n: usize, table: &[u16]) -> bool
        requires { Within table.now self × (n ≤ self.end.0 - self.at.0) }
        ensures { result ≡ none_skipped table.now self.at.0 n }
    {
        self.areas == 0 || table::none_skipped(table, self.at, Address(self.at.0 + n))
    }

    // The usable address that comes after `k` others, or the end if there are at most `k`.
    // The end stands for none, as in `table::search`.
    pub fn nth(self, k: usize, table: &[u16]) -> Address
        requires { Within table.now self }
        ensures is { result.0 ≡ get_or (ahead table.now self) k self.end.0 }
        ensures within { (self.at.0 ≤ result.0) × (result.0 ≤ self.end.0) }
    {
        if self.end.0 - self.at.0 <= k {
            return self.end;
        }
        if self.is_free(k + 1, table) {
            return Address(self.at.0 + k);
        }
        let mut at = table::next_usable(table, self.at, self.end);
        // Not through `take_byte`: it needs an image, and is slower in such loops (D53).
        for _ in 0..k {
            if at == self.end {
                return at;
            }
            at = table::next_usable(table, Address(at.0 + 1), self.end);
        }
        at
    }
}
