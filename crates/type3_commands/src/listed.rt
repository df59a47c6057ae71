// A command in its bytes.

ghost use Rattle.std.specs.Prelude.{◌≡◌, ◌*◌, ◌≤◌, length};

use crate::block_list;

// The elements of a command's block list, and sixteen bytes for each block.
#[derive(Clone, Copy, Debug)]
pub struct Listed<'a> {
    pub elements: &'a [[u8; block_list::ELEMENT]],
    pub blockdata: &'a [u8],
    ghost few: { length elements.now ≤ 8 },
    ghost whole: { length blockdata.now ≡ 16 * length elements.now },
}
