// The refusals, by name. specs/Refusals.antt has the same names for the definitions.

ghost use Rattle.std.specs.Prelude.{◌≡◌};
ghost use Rattle.tag.specs.Answers.{number_of};

use std::fmt;

// Why a call refuses. The numbers are those of the table 'Refusal numbers' of the requirements and of the requests.
#[derive(Clone, Copy, Debug, PartialEq, Eq)]
pub enum Refusal {
    // No tag of this type has an image of this length.
    ImageSize,
    // Type 2: byte 12 is not the magic number E1h. Type 3: the checksum is wrong. Type 6: the first three bytes are not the letters NDE.
    NotNdef,
    UnknownVersion,
    // Types 2 and 6: the access byte has a value that is not defined. Type 3: WriteFlag, RWFlag or Nbr has one.
    BadAccess,
    // The data area reaches past the image. Type 6: the image has another length than its blocks, or MAX_LEN is over the blocks left.
    BadDataArea,
    // A control TLV has a length other than 3 or a reserved nibble.
    BadControlTlv,
    // A TLV runs past the data area or has a bad length form. Type 3: Ln is over 16·Nmaxb. Type 6: NLEN is over m, or m is below 0.
    BadLength,
    NoMessageTlv,
    // The message to write has length 0.
    EmptyMessage,
    NotWritable,
    MessageTooLong,
    // The list, the bytes of a command, the message of records, a URI or its payload do not fit in the buffer.
    ShortBuffer,
    // An interrupted message does not fit in the gathering buffer.
    ShortGatheringBuffer,
    // Blocks of one byte split the length of a Type 6 message over two commands.
    BlockTooSmall,
    // The command is not well formed.
    MalformedCommand,
    // The command changes a protected byte.
    ProtectedByte,
    // After the command the tag is refused, or reads neither as the old message, nor as none, nor as the new one.
    Misread,
    // The list ends and the tag does not read as the message.
    Unfinished,
    // There are more than sixteen records in the NDEF message.
    TooManyRecords,
    // The record is a part of a chunked payload.
    ChunkedRecord,
    // The record is cut short, its TNF does not allow its lengths, MB or ME is in the wrong place, or the message has no record.
    MalformedRecord,
    // No NDEF message gives the list of records to write.
    UnwritableRecords,
    // The payload of a URI record has no byte, or its first byte is no code of an abbreviation.
    BadUri,
    // A Smart Poster record is inside four others.
    NestedTooDeep,
}

impl From<Refusal> for u8 {
    ghost from_gives = { λ refusal number. number ≡ number_of refusal };

    // The number of the refusal.
    fn from(refusal: Refusal) -> u8 {
        match refusal {
            Refusal::ImageSize => 1,
            Refusal::NotNdef => 2,
            Refusal::UnknownVersion => 3,
            Refusal::BadAccess => 4,
            Refusal::BadDataArea => 5,
            Refusal::BadControlTlv => 6,
            Refusal::BadLength => 7,
            Refusal::NoMessageTlv => 8,
            Refusal::EmptyMessage => 9,
            Refusal::NotWritable => 10,
            Refusal::MessageTooLong => 11,
            Refusal::ShortBuffer => 12,
            Refusal::ShortGatheringBuffer => 13,
            Refusal::BlockTooSmall => 14,
            Refusal::MalformedCommand => 20,
            Refusal::ProtectedByte => 21,
            Refusal::Misread => 22,
            Refusal::Unfinished => 23,
            Refusal::TooManyRecords => 30,
            Refusal::ChunkedRecord => 31,
            Refusal::MalformedRecord => 32,
            Refusal::UnwritableRecords => 33,
            Refusal::BadUri => 34,
            Refusal::NestedTooDeep => 35,
        }
    }
}

// A refusal is printed as its number.
impl fmt::Display for Refusal {
    fn fmt<W: fmt::Write>(&self, f: &mut fmt::Formatter<W>) -> fmt::Result {
        write!(f, "{}", u8::from(*self))
    }
}

// Why a list is not accepted: the refusal, and the position of the command that it is about, counted from 0. A refusal of writing is
// about no command, and has position 0.
// No Option: a Verdict of specs/Judge.antt has a number there, so none and position 0 would be one.
#[derive(Clone, Copy, Debug, PartialEq, Eq)]
pub struct Fault {
    pub refusal: Refusal,
    pub position: usize,
}

impl From<Refusal> for Fault {
    ghost from_gives = { λ refusal fault. fault ≡ record { refusal = refusal; position = 0 } };

    fn from(refusal: Refusal) -> Fault {
        Fault {
            refusal,
            position: 0,
        }
    }
}

impl Refusal {
    // The refusal about the command at a position.
    pub fn at(self, position: usize) -> Fault
        ensures { (result.refusal ≡ self) × (result.position ≡ position) }
    {
        Fault {
            refusal: self,
            position,
        }
    }
}
