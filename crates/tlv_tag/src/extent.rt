// Where the bytes to set lie on a tag with a TLV area.

use tag::Address;

// The bytes to set lie at the usable addresses from `first` up to `stop`.
#[derive(Clone, Copy, Debug, PartialEq, Eq)]
pub struct Extent {
    pub first: Address,
    pub stop: Address,
    // an address in between is skipped; found once, so that the judge does not sweep the table after each command
    pub skips: bool,
}
