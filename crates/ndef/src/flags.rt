// The first byte of a record: its flags, and the TNF in the low three bits. A writer of records sets the same flags.

ghost use Rattle.std.specs.Prelude.{◌≡◌, eqb};
ghost use Rattle.ndef.specs.Header.{mb, me, sr, il, tnf};
ghost use Rattle.ndef.specs.Views.Headers.{chunked};

pub const MESSAGE_BEGIN: u8 = 0x80;

pub const MESSAGE_END: u8 = 0x40;

const CHUNK: u8 = 0x20;

pub const SHORT_RECORD: u8 = 0x10;

pub const ID_LENGTH: u8 = 0x08;

// The TNF of a chunk that is not the first. A number, as every TNF: tnf_allows of specs/Record.antt takes one.
const UNCHANGED: usize = 6;

#[derive(Clone, Copy, Debug, Default, PartialEq, Eq)]
pub(crate) struct Flags(pub(crate) u8);

// One method a flag: has(MASK) is no plainer, since each caller would name the mask.
impl Flags {
    pub(crate) fn tnf(self) -> usize
        ensures { result ≡ tnf self.0 }
    {
        usize::from(self.0 % 8)
    }

    // Whether the record is a part of a chunked payload.
    pub(crate) fn is_chunk(self) -> bool
        ensures { result ≡ chunked self.0 }
    {
        self.0 & CHUNK != 0 || self.tnf() == UNCHANGED
    }

    // SR: the payload's length is one byte.
    pub(crate) fn is_short(self) -> bool
        ensures { result ≡ eqb (sr self.0) 1 }
    {
        self.0 & SHORT_RECORD != 0
    }

    // IL: there is an ID length.
    pub(crate) fn has_id(self) -> bool
        ensures { result ≡ eqb (il self.0) 1 }
    {
        self.0 & ID_LENGTH != 0
    }

    // MB: the record is the message's first.
    pub(crate) fn begins_message(self) -> bool
        ensures { result ≡ eqb (mb self.0) 1 }
    {
        self.0 & MESSAGE_BEGIN != 0
    }

    // ME: the record is the message's last.
    pub(crate) fn ends_message(self) -> bool
        ensures { result ≡ eqb (me self.0) 1 }
    {
        self.0 & MESSAGE_END != 0
    }
}
