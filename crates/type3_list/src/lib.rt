// The list of write commands for a Type 3 tag, laid from the blocks to write.

#![tactic(auto)]

mod blocks;
pub mod changed;
pub mod list;

ghost use Rattle.std.specs.Prelude.{◌≡◌, ◌<◌, ◌≤◌, length};
ghost use Rattle.type3_list.specs.Views.Blocks.{Chosen};
ghost use Rattle.type3_list.specs.Views.Listing.{Dealt};

use type3::read::AttributeInformation;

// What a list is laid from.
#[derive(Clone, Copy, Debug)]
pub struct WriteList<'a> {
    pub image: &'a [u8],
    pub message: &'a [u8],
    pub idm: [u8; 8],
    pub information: AttributeInformation,
    // the blocks of the message that are written, dealt out to `turns` commands, `width` to a command
    pub blocks: &'a [u8],
    pub width: usize,
    pub turns: usize,
    ghost eight: { length idm ≡ 8 },
    ghost block: { 16 ≤ length image.now },
    ghost small: { information.ln < 65536 },
    ghost chosen: { Chosen message.now blocks.now },
    ghost dealt: { Dealt (length blocks.now) width turns },
}
