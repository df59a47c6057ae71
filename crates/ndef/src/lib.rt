// NDEF records, over the bytes of a message: reading a message as a list of at most sixteen records. Nothing here knows of tags.

#![tactic(auto)]

pub mod checks;
pub mod flags;
mod headers;
pub mod read;

ghost use Rattle.std.specs.Prelude.{◌≡◌, ◌+◌, ◌≤◌, length};
ghost use Rattle.ndef.specs.Places.{part_at, numbers_of, first_place};

pub use headers::Header;

// The most records that a message may have.
pub const MOST: usize = 16;

// How many numbers of a table a record takes.
pub const NUMBERS: usize = 7;

// The length of a table that has room for the records of any message.
pub const TABLE: usize = MOST * NUMBERS;

// A part of some bytes: where it starts, and its length.
#[derive(Clone, Copy, Debug, PartialEq, Eq)]
pub struct Part {
    pub at: usize,
    pub len: usize,
}

impl Part {
    // The part of these bytes.
    #[tactic(auto, unfolding(crate::specs::Message::part))]
    pub fn of(self, bytes: &[u8]) -> &[u8]
        requires { self.at + self.len ≤ length bytes.now }
        ensures { result.now ≡ part_at bytes.now self }
    {
        &bytes[self.at..self.at + self.len]
    }
}

// A record by its place: its TNF, and where its type, ID and payload lie in some bytes. A table has these seven numbers for each record,
// in this order. (`type` is a word of the language, so the type is `rtype`.)
#[derive(Clone, Copy, Debug, PartialEq, Eq)]
pub struct Place {
    // A number: a caller's table may hold any (the C interface), and tnf_allows of specs/Record.antt takes one.
    pub tnf: usize,
    pub rtype: Part,
    pub id: Part,
    pub payload: Part,
}

impl From<Place> for [u64; NUMBERS] {
    ghost from_gives = { λ place numbers. numbers ≡ numbers_of place };

    #[tactic(auto, unfolding(crate::specs::Places::numbers_of))]
    fn from(place: Place) -> [u64; NUMBERS] {
        let Place {
            tnf,
            rtype,
            id,
            payload,
        } = place;
        [
            tnf as u64,
            rtype.at as u64,
            rtype.len as u64,
            id.at as u64,
            id.len as u64,
            payload.at as u64,
            payload.len as u64,
        ]
    }
}

impl From<[u64; NUMBERS]> for Place {
    ghost from_gives = { λ numbers place. place ≡ first_place numbers };

    #[tactic(auto, unfolding(crate::specs::Places::first_place))]
    fn from(numbers: [u64; NUMBERS]) -> Place {
        let [
            tnf,
            type_at,
            type_len,
            id_at,
            id_len,
            payload_at,
            payload_len,
        ] = numbers;
        Place {
            tnf: tnf as usize,
            rtype: Part {
                at: type_at as usize,
                len: type_len as usize,
            },
            id: Part {
                at: id_at as usize,
                len: id_len as usize,
            },
            payload: Part {
                at: payload_at as usize,
                len: payload_len as usize,
            },
        }
    }
}
