// The areas that control TLVs declare.

ghost use Rattle.std.specs.Prelude.{◌≡◌, ◌≤◌};
ghost use Rattle.tlv.specs.Areas.{allowed_area, reserved, full_size, area_size, area_of};

use tag::Address;

// Which control TLV: 01h lock control, 02h memory control.
#[derive(Clone, Copy, Debug, PartialEq, Eq)]
pub enum Control {
    Lock,
    Memory,
}

// An area: its first address, which may lie far outside the image, and its size in bytes.
#[derive(Clone, Copy, Debug, PartialEq, Eq)]
pub struct Area {
    pub start: Address,
    pub size: usize,
    // at most 15·2^15 + 15
    ghost near: { start.0 ≤ 491535 },
    ghost short: { size ≤ 256 },
}

// The size that a byte gives: 00h means 256.
fn full_size(size: u8) -> usize
    ensures { (result ≡ full_size size) × (result ≤ 256) }
{
    if size == 0 { 256 } else { usize::from(size) }
}

impl Control {
    ghost use Rattle.tlv.specs.Views.Areas.{control_as, area_as};

    // Whether a nibble of the value's last byte is reserved.
    pub(crate) fn is_reserved(self, last: u8) -> bool
        ensures { result ≡ reserved (control_as self) last }
    {
        last % 16 == 0 || matches!(self, Control::Lock) && last / 16 == 0
    }

    // The size in bytes: lock control counts bits.
    fn area_size(self, size: u8) -> usize
        ensures { (result ≡ area_size (control_as self) size) × (result ≤ 256) }
    {
        // One walk for both TLVs: they differ in the nibble and the size.
        match self {
            Control::Lock => full_size(size).div_ceil(8),
            Control::Memory => full_size(size),
        }
    }

    // The area that the control TLV's three value bytes declare.
    pub(crate) fn area_of(self, place: u8, size: u8, last: u8) -> Area
        ensures is { area_as result ≡ area_of (control_as self) place size last }
    {
        let page = usize::from(place / 16);
        let start = (page << (last % 16)) + usize::from(place % 16);
        Area {
            start: Address(start),
            size: self.area_size(size),
        }
    }
}

impl Area {
    ghost use Rattle.tlv.specs.Views.Areas.{area_as};

    // Whether the area may be declared, given the data area's first address and the image's length. Any area may, even one outside
    // the image.
    #[tactic(auto, unfolding(crate::specs::Areas::allowed_area))]
    pub(crate) fn allowed(self, first: Address, len: usize) -> bool
        ensures { result ≡ allowed_area first.0 len (area_as self) }
    {
        true
    }
}
