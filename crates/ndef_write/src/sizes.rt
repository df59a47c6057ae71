// How long the message of a table's records is, and whether there is one: refusal 33.

ghost use Rattle.std.specs.Prelude.{◌≡◌, ◌≤◌, ◌<◌, true, false, IfSome, MatchOption};
ghost use Rattle.ndef.specs.Places.{part_in, lies_in};
ghost use Rattle.ndef.specs.Writing.{header_holds};
ghost use Rattle.ndef_write.specs.Views.Sizes.{header_size, size_for, is_list_of, Sized};

use ndef::{MOST, NUMBERS, Part, Place, checks};

// Whether a part lies in `size` bytes. Start and length together may be too much for a number, so they are not added.
fn part_lies_in(part: Part, size: usize) -> bool
    ensures { result ≡ part_in size part }
{
    part.at <= size && part.len <= size - part.at
}

// Whether the parts of a place all lie in `size` bytes.
#[tactic(auto, unfolding(ndef::specs::Places::lies_in))]
fn lies_in(place: Place, size: usize) -> bool
    ensures { result ≡ lies_in size place }
{
    part_lies_in(place.rtype, size)
        && part_lies_in(place.id, size)
        && part_lies_in(place.payload, size)
}

// Whether a header has room for these lengths of type, ID and payload.
#[tactic(auto, unfolding(ndef::specs::Writing::header_holds))]
fn header_holds(rtype: usize, id: usize, payload: usize) -> bool
    ensures is { result ≡ header_holds rtype id payload }
    ensures small { result ≡ true → (rtype < 256) × (id < 256) × (payload < 4294967296) }
{
    rtype < 256 && id < 256 && payload < 4294967296
}

// The length of a header in the shortest form.
#[tactic(auto, unfolding(crate::specs::Views::Sizes::header_size))]
fn header_size(id: usize, payload: usize) -> usize
    ensures is { result ≡ header_size id payload }
    ensures small { result ≤ 7 }
{
    match (payload < 256, id == 0) {
        (true, true) => 3,
        (true, false) => 4,
        (false, true) => 6,
        (false, false) => 7,
    }
}

// The length of the record that a place names in `size` bytes, if it can be written.
fn record_size(place: Place, size: usize) -> Option<usize>
    ensures is { result ≡ size_for size place }
    ensures small { IfSome result (λ n. n < 8589934592) }
{
    let (rtype, id, payload) = (place.rtype.len, place.id.len, place.payload.len);
    if lies_in(place, size)
        && header_holds(rtype, id, payload)
        && checks::tnf_allows(place.tnf, rtype, id, payload)
    {
        Some(header_size(id, payload) + rtype + id + payload)
    } else {
        None
    }
}

// The length of the message of the records that these rows name, if some message gives them.
pub(crate) fn message_size(rows: &[[u64; NUMBERS]], bytes: &[u8]) -> Option<usize>
    ensures { MatchOption result (is_list_of bytes.now rows.now ≡ false) (λ n. Sized bytes.now rows.now n) }
{
    if rows.is_empty() || MOST < rows.len() {
        return None;
    }
    let mut total = 0;
    for row in rows {
        total += record_size(Place::from(*row), bytes.len())?;
    }
    Some(total)
}
