// Laying the bytes of records into the caller's buffer, one after the other.
//
// Buffer and place are two arguments: a struct of both is no plainer, since it would need PutAt over its fields.

ghost use Rattle.std.specs.Prelude.{◌≡◌, cond, ◌+◌, ◌≤◌, ◌<◌, ◌^◌, length};
ghost use Rattle.std.proofs.lemmas.List.Edits.{sets};
ghost use Rattle.ndef.specs.Places.{record_at};
ghost use Rattle.ndef.specs.Shortest.{header_bytes, record_bytes, message_bytes};
ghost use Rattle.ndef_write.specs.Views.Sizes.{named};
ghost use Rattle.ndef_write.specs.Views.Laying.{PutAt, Lays, Fits};

use ndef::flags::{ID_LENGTH, MESSAGE_BEGIN, MESSAGE_END, SHORT_RECORD};
use ndef::{NUMBERS, Place};
use tag::slices;

// Writes bytes to the buffer from `at` on, and returns where they end.
fn put(from: &[u8], out: &mut [u8], at: usize) -> usize
    requires { at + length from.now ≤ length out.old }
    ensures { PutAt out.old out.new at from.now result }
{
    slices::store(from, at, out);
    at + from.len()
}

// Writes a header: SR if the payload has at most 255 bytes, IL if there is an ID.
fn put_header(flags: u8, rtype: u8, id: u8, payload: u32, out: &mut [u8], at: usize) -> usize
    requires small { flags < 232 }
    requires room { at + length (header_bytes flags rtype id payload) ≤ length out.old }
    ensures { PutAt out.old out.new at (header_bytes flags rtype id payload) result }
{
    let [p3, p2, p1, p0] = payload.to_be_bytes();
    match (payload < 256, id == 0) {
        (true, true) => put(&[flags + SHORT_RECORD, rtype, p0], out, at),
        (true, false) => put(&[flags + SHORT_RECORD + ID_LENGTH, rtype, p0, id], out, at),
        (false, true) => put(&[flags, rtype, p3, p2, p1, p0], out, at),
        (false, false) => put(&[flags + ID_LENGTH, rtype, p3, p2, p1, p0, id], out, at),
    }
}

// Writes the record that a place names in the bytes. `first`: it is the first record of a list; `last`: it is the last.
fn put_record(
    first: bool,
    last: bool,
    place: Place,
    bytes: &[u8],
    out: &mut [u8],
    at: usize,
) -> usize
    requires lays { Lays (length bytes.now) place }
    requires room { at + length (record_bytes (cond first 1 0) (cond last 1 0) (record_at bytes.now place)) ≤ length out.old }
    ensures { PutAt out.old out.new at (record_bytes (cond first 1 0) (cond last 1 0) (record_at bytes.now place)) result }
{
    let Place {
        tnf,
        rtype,
        id,
        payload,
    } = place;
    let flags = u8::from(first) * MESSAGE_BEGIN + u8::from(last) * MESSAGE_END + tnf as u8;
    let at = put_header(
        flags,
        rtype.len as u8,
        id.len as u8,
        payload.len as u32,
        out,
        at,
    );
    let at = put(rtype.of(bytes), out, at);
    let at = put(id.of(bytes), out, at);
    put(payload.of(bytes), out, at)
}

// Writes the message of the records that these rows name to the front of a buffer that is long enough.
pub(crate) fn put_records(rows: &[[u64; NUMBERS]], bytes: &[u8], out: &mut [u8])
    requires { Fits bytes.now rows.now (length out.old) }
    ensures { out.new ≡ sets out.old 0 (message_bytes 1 (named bytes.now rows.now)) }
{
    let mut at = 0;
    for (k, row) in rows.iter().enumerate() {
        let last = k + 1 == rows.len();
        at = put_record(k == 0, last, Place::from(*row), bytes, out, at);
    }
}
