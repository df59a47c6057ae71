// What is particular to Type 6 in the list of write commands: the new image, the command, and how the guard block is shut. The guard
// block is the file's first, so NLEN is its first two bytes.

ghost use Rattle.std.specs.Prelude.{◌≡◌, ◌+◌, ◌/◌, ◌≤◌, length};
ghost use Rattle.tag.specs.Bytes.{overlay};
ghost use Rattle.type6.specs.Update.{addresses, values};
ghost use Rattle.one_block_write.specs.Views.Listing.{Listed};
ghost use Rattle.type6_write.specs.Views.Listing.{front, shut_bytes};

use one_block_write::BlockUpdate;
use tag::{Address, Block, slices};
use type6::commands;
use type6::container::{Container, NLEN};

// Makes the new image: the image with NLEN and the message in the file.
pub(crate) fn lay(image: &[u8], message: &[u8], file: Address, new: &mut [u8])
    requires { (length new.old ≡ length image.now) × (file.0 + (2 + length message.now) ≤ length image.now) × (length image.now ≤ 8192) }
    ensures { new.new ≡ overlay (addresses file.0 message.now) (values message.now) image.now }
{
    let n = message.len();
    let nlen = file.0;
    let start = nlen + NLEN;
    new.copy_from_slice(image);
    new[nlen..start].copy_from_slice(&(n as u16).to_le_bytes());
    new[start..start + n].copy_from_slice(message);
}

// A tag, its container and its new image.
#[derive(Clone, Copy, Debug)]
pub(crate) struct Blocks<'a> {
    pub(crate) image: &'a [u8],
    pub(crate) new: &'a [u8],
    pub(crate) container: Container,
    ghost listed: { Listed front container.size image.now new.now (container.file.0 / container.size) (shut_bytes container.size container.file.0 image.now) },
    ghost large: { 2 ≤ container.size },
    ghost inside: { container.file.0 + container.size ≤ length image.now },
}

impl BlockUpdate for Blocks<'_> {
    ghost use Rattle.std.specs.Prelude.{◌/◌, eqb};
    ghost use Rattle.type6_write.specs.Views.Listing.{front, shut_bytes};

    ghost front = { λ u. front };

    ghost size = { λ u. u.container.size };

    ghost image = { λ u. u.image.now };

    ghost new_image = { λ u. u.new.now };

    ghost guard = { λ u. u.container.file.0 / u.container.size };

    ghost shut = { λ u. shut_bytes u.container.size u.container.file.0 u.image.now };

    ghost is_shut = { λ u. eqb u.container.nlen 0 };

    ghost listed = { λ u. u.listed };

    fn block_size(&self) -> usize {
        self.container.size
    }

    fn command_length(&self) -> usize {
        commands::DATA + self.container.size
    }

    fn image(&self) -> &[u8] {
        self.image
    }

    fn new_image(&self) -> &[u8] {
        self.new
    }

    fn guard(&self) -> Block {
        self.container.file.block(self.container.size)
    }

    fn is_shut(&self) -> bool {
        self.container.nlen == 0
    }

    fn put_command(&self, block: Block, held: &[u8], command: &mut [u8]) {
        slices::store(
            &[commands::FLAGS, commands::CODE, block.0 as u8],
            0,
            command,
        );
        slices::store(held, commands::DATA, command);
    }

    // The image's bytes, with NLEN zero.
    fn put_shut(&self, command: &mut [u8]) {
        let file = self.container.file.0;
        let held = &self.image[file..file + self.container.size];
        self.put_command(self.guard(), held, command);
        command[commands::DATA..commands::DATA + NLEN].fill(0x00);
    }
}
