// The skip table: a slice with an entry for each address, as long as its caller likes. A skipped address has as its entry the end of
// an area that covers it, or the end of the data area if that comes first. Any other address has 0.

ghost use Rattle.std.specs.Prelude.{◌≡◌, ℕ, ◌+◌, ◌-◌, ◌<◌, ◌≤◌, length, get_or};
ghost use Rattle.tlv.specs.Views.Table.{unskipped, none_skipped};
ghost use Rattle.tlv.specs.Views.Areas.{SkipsSet};
ghost use Rattle.tlv.specs.Views.Counted.{TableOf, MadeByAreas};
ghost use Rattle.tlv.specs.Views.Search.{tests};

use tag::Address;

// Where a search for a usable address ended, and how many addresses it tested. To test an address is to look at its entry; the address
// found is one of those tested.
#[derive(Clone, Copy, Debug, PartialEq, Eq)]
pub struct Searched {
    pub address: Address,
    pub tested: usize,
}

// The first usable address from `at` on, or `end`. From a skipped address the search goes to the end in its entry, so it passes a
// whole area at once. The ends that it meets rise, so no area serves twice: it tests at most one address more than areas were declared.
// `end` stands for none: a caller moves its walk there too, so each would undo an Option.
pub fn search(table: &[u16], at: Address, end: Address) -> Searched
    requires { (at.0 ≤ end.0) × (end.0 ≤ length table.now) × MadeByAreas table.now }
    ensures within { (at.0 ≤ result.address.0) × (result.address.0 ≤ end.0) }
    ensures left { unskipped table.now at.0 (end.0 - at.0) ≡ unskipped table.now result.address.0 (end.0 - result.address.0) }
    ensures free { result.address.0 < end.0 → get_or table.now result.address.0 0 ≡ 0 }
    ensures tests { result.tested ≡ length (tests table.now end.0 (end.0 - at.0) at.0) }
    ensures few { (n : ℕ) → TableOf end.0 n table.now → result.tested ≤ n + 1 }
{
    let mut a = at.0;
    let mut tested = 0;
    while a < end.0 {
        tested += 1;
        let entry = table[a];
        if entry == 0 {
            return Searched {
                address: Address(a),
                tested,
            };
        }
        a = usize::from(entry);
    }
    Searched {
        address: end,
        tested,
    }
}

// The same without the count, for callers that need the address alone.
// `end` stands for none, as in `search`.
pub fn next_usable(table: &[u16], at: Address, end: Address) -> Address
    requires { (at.0 ≤ end.0) × (end.0 ≤ length table.now) × MadeByAreas table.now }
    ensures within { (at.0 ≤ result.0) × (result.0 ≤ end.0) }
    ensures left { unskipped table.now at.0 (end.0 - at.0) ≡ unskipped table.now result.0 (end.0 - result.0) }
    ensures free { result.0 < end.0 → get_or table.now result.0 0 ≡ 0 }
{
    search(table, at, end).address
}

// Whether every address from `at` up to `end` is usable. Every turn does the same to one 16-bit number, so a compiler can treat many
// addresses at once.
// Two addresses, here and above: no struct holds just these two, and a bare range promises nothing of its ends.
pub fn none_skipped(table: &[u16], at: Address, end: Address) -> bool
    requires { (at.0 ≤ end.0) × (end.0 ≤ length table.now) }
    ensures { result ≡ none_skipped table.now at.0 (end.0 - at.0) }
{
    let mut any = 0;
    for entry in &table[at.0..end.0] {
        any |= *entry;
    }
    any == 0
}

// Skips the addresses from `first` up to `stop`, because an area that ends at `stop` covers them. `fill` stores the last entry by
// itself, which takes longer on the short areas that tags declare.
pub(crate) fn skip(table: &mut [u16], first: Address, stop: Address)
    requires { (stop.0 ≤ length table.old) × (stop.0 < 65536) }
    ensures { SkipsSet table.old table.new first.0 stop.0 }
{
    if first.0 < stop.0 {
        for entry in &mut table[first.0..stop.0] {
            *entry = stop.0 as u16;
        }
    }
}
