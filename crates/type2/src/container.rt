// The capability container: refusals 1 to 5, and the data area.

ghost use Rattle.std.specs.Prelude.{◌≡◌, MatchResult};
ghost use Rattle.tag.specs.Checks.{fault, first_of};
ghost use Rattle.tag.specs.Answers.{number_of};
ghost use Rattle.type2.specs.Memory.{memory};
ghost use Rattle.type2.specs.Views.Container.{Inside};

use tag::{Address, Refusal, version};

// How many bytes a block has.
pub const BLOCK_SIZE: usize = 4;

// How many bytes an image has at least.
pub const SHORTEST_IMAGE: usize = 64;

// How many bytes an image has at most.
pub const LONGEST_IMAGE: usize = 1024;

// The addresses of the container's four bytes, from here to ACCESS.
pub const MAGIC: usize = 12;

const VERSION: usize = 13;

const SIZE: usize = 14;

const ACCESS: usize = 15;

// The data area's first address.
pub const FIRST: usize = 16;

// The data area of a tag whose container passes the tests.
#[derive(Clone, Copy, Debug, PartialEq, Eq)]
pub struct DataArea {
    // the address past its last byte
    pub end: Address,
    pub writable: bool,
}

// Refusals 1 to 5, in this order, or the data area.
pub fn data_area(image: &[u8]) -> Result<DataArea, Refusal>
    ensures { MatchResult result (λ area. Inside image.now area.end.0 area.writable) (λ refusal. first_of (memory.checks image.now) ≡ fault (number_of refusal)) }
{
    let n = image.len();
    if n % BLOCK_SIZE != 0 || n < SHORTEST_IMAGE || LONGEST_IMAGE < n {
        return Err(Refusal::ImageSize);
    }
    if image[MAGIC] != 0xE1 {
        return Err(Refusal::NotNdef);
    }
    if !version::is_known(image[VERSION]) {
        return Err(Refusal::UnknownVersion);
    }
    let writable = match image[ACCESS] {
        0x00 => true,
        0x0F => false,
        _ => return Err(Refusal::BadAccess),
    };
    let end = FIRST + 8 * usize::from(image[SIZE]);
    if n < end {
        return Err(Refusal::BadDataArea);
    }
    Ok(DataArea {
        end: Address(end),
        writable,
    })
}
