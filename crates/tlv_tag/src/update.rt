// What writing a message sets, at the usable addresses from a walk's place on: the message's length in its shortest form, the
// message, and FEh if an address is left for it.

ghost use Rattle.std.specs.Prelude.{◌≡◌, ◌≤◌, length, drop};
ghost use Rattle.tag.specs.Bytes.{overlay};
ghost use Rattle.tlv.specs.Views.Walks.{ahead, Within, Along};
ghost use Rattle.tlv_tag.specs.Update.{length_field, tlv_bytes};
ghost use Rattle.tlv_tag.specs.Views.Update.{tlv_bytes_length};

use tlv::walk::Walk;
use tlv_value::value;

// Sets the length in its shortest form, and returns the walk past it.
#[tactic(auto, unfolding(crate::specs::Update::length_field))]
// Why `n ≤ 65534` is a clause: see `extent_of`.
fn set_length(walk: Walk, n: usize, table: &[u16], image: &mut [u8]) -> Walk
    requires { (walk.end.0 ≤ length image.old) × Within table.now walk × (n ≤ 65534) }
    ensures sets { image.new ≡ overlay (ahead table.now walk) (length_field n) image.old }
    ensures past { ahead table.now result ≡ drop (length (length_field n)) (ahead table.now walk) }
    ensures placed { Along table.now walk result }
{
    if n <= 254 {
        return value::set_bytes(walk, &[n as u8], table, image);
    }
    let [high, low] = (n as u16).to_be_bytes();
    value::set_bytes(walk, &[0xFF, high, low], table, image)
}

// Sets length, message and FEh in the image. Why the length has a bound: see `extent_of`.
#[tactic(auto, using(crate::proofs::TlvBytes::in_parts))]
pub(crate) fn set_tlv_bytes(walk: Walk, message: &[u8], table: &[u16], image: &mut [u8])
    requires { (walk.end.0 ≤ length image.old) × Within table.now walk × (length message.now ≤ 65534) }
    ensures { image.new ≡ overlay (ahead table.now walk) (tlv_bytes message.now) image.old }
{
    let after_length = set_length(walk, message.len(), table, image);
    let after_message = value::set_bytes(after_length, message, table, image);
    value::set_bytes(after_message, &[0xFE], table, image);
}

// How many bytes there are to set for a message of `n` bytes, if there is room for FEh too.
#[tactic(auto, unfolding(crate::specs::Update::length_field))]
// Why `n ≤ 65534` is a clause: see `extent_of`.
pub(crate) fn tlv_bytes_length(n: usize) -> usize
    requires { n ≤ 65534 }
    ensures { result ≡ tlv_bytes_length n }
{
    if n <= 254 { n + 2 } else { n + 4 }
}
