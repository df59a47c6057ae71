// The bytes at the usable addresses from a walk's place on: how many there are, reading and setting them.
//
// Every loop here is at a usable address or at the end, and each turn moves on to the next usable address.

ghost use Rattle.std.specs.Prelude.{◌≡◌, map, ◌-◌, ◌<◌, ◌≤◌, length, take, drop};
ghost use Rattle.tag.specs.Bytes.{byte, overlay, overwrite};
ghost use Rattle.tlv.specs.Views.Table.{unskipped};
ghost use Rattle.tlv.specs.Views.Walks.{ahead, Within, InTable, Along};
ghost use Rattle.tlv_value.specs.Views.Values.{measured, value_as, ValueRoom};

use tag::{Address, slices};
use tlv::table;
use tlv::walk::Walk;

// A value of a given length: the address of its first byte, and whether it is interrupted.
#[derive(Clone, Copy, Debug, PartialEq, Eq)]
pub struct Value {
    pub address: Address,
    pub interrupted: bool,
}

// How many of the addresses from `at` up to `end` are usable. As in `table::none_skipped`, a compiler can treat many addresses at once.
// Two addresses, which a bare range can't bound.
fn count_usable(table: &[u16], at: Address, end: Address) -> usize
    requires { (at.0 ≤ end.0) × (end.0 ≤ length table.now) × (end.0 ≤ 1024) }
    ensures is { result ≡ length (unskipped table.now at.0 (end.0 - at.0)) }
    ensures few { result ≤ end.0 - at.0 }
{
    let mut n = 0;
    for entry in &table[at.0..end.0] {
        n += u16::from(*entry == 0);
    }
    usize::from(n)
}

// How many usable bytes are still to come. Where no area is declared, every byte is usable.
pub fn count(walk: Walk, table: &[u16]) -> usize
    requires { Within table.now walk }
    ensures is { result ≡ length (ahead table.now walk) }
    ensures few { result ≤ 1024 }
{
    if walk.areas == 0 {
        return walk.end.0 - walk.at.0;
    }
    count_usable(table, walk.at, walk.end)
}

// The next `n` usable bytes as a value, unless fewer are left. Their addresses rise, so they are consecutive exactly if the first and
// the last are `n - 1` apart.
pub fn measure(walk: Walk, n: usize, table: &[u16]) -> Option<Value>
    requires { (1 ≤ n) × Within table.now walk }
    ensures is { value_as result ≡ measured n (ahead table.now walk) }
    ensures room { ValueRoom n (ahead table.now walk) result }
{
    let last = walk.nth(n - 1, table);
    if last == walk.end {
        return None;
    }
    let address = table::next_usable(table, walk.at, walk.end);
    Some(Value {
        address,
        interrupted: address.0 + (n - 1) < last.0,
    })
}

// Copies the next `n` usable bytes, or as many as there are, to the front of `out`.
pub fn gather(walk: Walk, n: usize, image: &[u8], table: &[u16], out: &mut [u8])
    requires { (walk.end.0 ≤ length image.now) × InTable table.now walk × (n ≤ length out.old) }
    ensures { out.new ≡ overwrite (map (byte image.now) (take n (ahead table.now walk))) out.old }
{
    let mut at = table::next_usable(table, walk.at, walk.end);
    // Tried, and slower: through `Walk::take_byte` (D53).
    for slot in &mut out[..n] {
        if at == walk.end {
            return;
        }
        *slot = image[at.0];
        at = table::next_usable(table, Address(at.0 + 1), walk.end);
    }
}

// Sets the next usable bytes to `bytes` until either runs out, and returns the walk past them.
pub fn set_bytes(walk: Walk, bytes: &[u8], table: &[u16], image: &mut [u8]) -> Walk
    requires { (walk.end.0 ≤ length image.old) × Within table.now walk }
    ensures sets { image.new ≡ overlay (ahead table.now walk) bytes.now image.old }
    ensures past { ahead table.now result ≡ drop (length bytes.now) (ahead table.now walk) }
    ensures placed { Along table.now walk result }
{
    let n = bytes.len();
    // Mostly nothing is skipped on the way, and the bytes lie one after another: with one store for each address, writing 1,000 of them
    // took three times as long.
    if n <= walk.end.0 - walk.at.0 && walk.is_free(n, table) {
        slices::store(bytes, walk.at.0, image);
        return walk.moved_to(Address(walk.at.0 + n));
    }
    let mut at = table::next_usable(table, walk.at, walk.end);
    // Tried, and slower: through `Walk::take_byte`, 2.27 µs for a message of 1,000 bytes in place of 1.73 µs (D53).
    for byte in bytes {
        if at == walk.end {
            break;
        }
        image[at.0] = *byte;
        at = table::next_usable(table, Address(at.0 + 1), walk.end);
    }
    walk.moved_to(at)
}
