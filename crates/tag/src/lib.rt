// What every type of tag shares: addresses and blocks, what a tag says of itself, and why a call refuses.

#![tactic(auto)]

pub mod holding;
pub mod kept;
pub mod refusals;
pub mod slices;
pub mod version;

ghost use Rattle.std.specs.Prelude.{◌≡◌, ◌*◌, ◌/◌, ◌^◌, ◌<◌};

pub use refusals::{Fault, Refusal};

// Byte addresses and block numbers are two kinds of number. The two methods below are the only conversions between them.

// The address of a byte in a tag's memory.
#[derive(Clone, Copy, Debug, PartialEq, Eq, PartialOrd, Ord)]
pub struct Address(pub usize);

// The number of a block of a tag's memory.
#[derive(Clone, Copy, Debug, PartialEq, Eq, PartialOrd, Ord)]
pub struct Block(pub usize);

impl Address {
    // The block that the address lies in, with blocks of `size` bytes.
    pub fn block(self, size: usize) -> Block
        requires { 0 < size }
        ensures { result.0 ≡ self.0 / size }
    {
        Block(self.0 / size)
    }
}

impl Block {
    // The address of the block's first byte, with blocks of `size` bytes.
    pub fn address(self, size: usize) -> Address
        requires { size * self.0 < 2 ^ 32 }
        ensures { result.0 ≡ size * self.0 }
    {
        Address(size * self.0)
    }
}

// What a tag that reads holds: a message, an empty one, or one being written.
#[derive(Clone, Copy, Debug, PartialEq, Eq)]
pub enum Content {
    // The message's first byte has the address. Interrupted: a skipped address lies between its first and last byte.
    Message {
        address: Address,
        length: usize,
        interrupted: bool,
    },
    Empty,
    BeingWritten,
}

// What a tag that reads says of itself.
#[derive(Clone, Copy, Debug, PartialEq, Eq)]
pub struct Report {
    pub content: Content,
    pub writable: bool,
    // the greatest length that fits, whether the tag is writable or not
    pub capacity: usize,
}
