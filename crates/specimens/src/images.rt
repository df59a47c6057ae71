// Images of tags, given by their first bytes that are not 00h.

// An image of `N` bytes with these from `at` on, and 00h elsewhere.
pub fn image<const N: usize>(at: usize, bytes: &[u8]) -> [u8; N] {
    let mut image = [0u8; N];
    // zip stops at the shorter, where a range could be out of bounds.
    for (place, byte) in image.iter_mut().skip(at).zip(bytes) {
        *place = *byte;
    }
    image
}
