// The header of a record: what its bytes say of the record's lengths.

ghost use Rattle.std.specs.Prelude.{◌≡◌, ◌+◌, ◌<◌, ◌^◌, length, MatchOption};
ghost use Rattle.tag.specs.Bytes.{byte};
ghost use Rattle.ndef.specs.Header.{header_length};
ghost use Rattle.ndef.specs.Views.Headers.{header_of, length_for, may_stand, place_for};

use crate::flags::Flags;
use crate::{Part, Place, checks};

// What the header of a record says: its first byte, and the lengths of the header, the type, the ID and the payload.
#[derive(Clone, Copy, Debug, Default, PartialEq, Eq)]
pub struct Header {
    flags: Flags,
    len: u8,
    rtype: u8,
    id: u8,
    payload: u32,
}

impl Header {
    // The header at the front of these bytes, unless it is cut short. Each form has its own arm, and its length is a constant there: where
    // the next record starts then waits for no test of the flags. The first arm is the form that most records have.
    #[tactic(auto, unfolding(crate::specs::Header::header_length, crate::specs::Header::id_length, crate::specs::Header::payload_length))]
    pub(crate) fn at_front(bytes: &[u8]) -> Option<Header>
        ensures { MatchOption result (length bytes.now < header_length (byte bytes.now 0)) (λ h. h ≡ header_of bytes.now) }
    {
        let [flags, ..] = bytes else {
            return None;
        };
        let flags = Flags(*flags);
        match (flags.is_short(), flags.has_id(), bytes) {
            (true, false, [_, rtype, payload, ..]) => Some(Header {
                flags,
                len: 3,
                rtype: *rtype,
                id: 0,
                payload: u32::from(*payload),
            }),
            (true, true, [_, rtype, payload, id, ..]) => Some(Header {
                flags,
                len: 4,
                rtype: *rtype,
                id: *id,
                payload: u32::from(*payload),
            }),
            (false, false, [_, rtype, p3, p2, p1, p0, ..]) => Some(Header {
                flags,
                len: 6,
                rtype: *rtype,
                id: 0,
                payload: u32::from_be_bytes([*p3, *p2, *p1, *p0]),
            }),
            (false, true, [_, rtype, p3, p2, p1, p0, id, ..]) => Some(Header {
                flags,
                len: 7,
                rtype: *rtype,
                id: *id,
                payload: u32::from_be_bytes([*p3, *p2, *p1, *p0]),
            }),
            _ => None,
        }
    }

    // The length of the whole record.
    pub fn record_len(self) -> usize
        ensures { result ≡ length_for self }
    {
        usize::from(self.len)
            + usize::from(self.rtype)
            + usize::from(self.id)
            + self.payload as usize
    }

    // Whether a record with this header that is no chunk may stand where `size` bytes of the message are left. `first`: it is the
    // message's first record.
    pub(crate) fn may_stand(self, size: usize, first: bool) -> bool
        ensures { result ≡ may_stand self size first }
    {
        let len = self.record_len();
        len <= size
            && checks::tnf_allows(
                self.flags.tnf(),
                usize::from(self.rtype),
                usize::from(self.id),
                self.payload as usize,
            )
            && self.flags.begins_message() == first
            && self.flags.ends_message() == (len == size)
    }

    // The place of the record with this header, which follows `at` bytes.
    pub fn place(self, at: usize) -> Place
        requires { at + length_for self < 2 ^ 64 }
        ensures { result ≡ place_for self at }
    {
        let rtype = Part {
            at: at + usize::from(self.len),
            len: usize::from(self.rtype),
        };
        let id = Part {
            at: rtype.at + rtype.len,
            len: usize::from(self.id),
        };
        let payload = Part {
            at: id.at + id.len,
            len: self.payload as usize,
        };
        Place {
            tnf: self.flags.tnf(),
            rtype,
            id,
            payload,
        }
    }
}
