// Whether a Type 3 tag keeps the bytes that writing a message does not set.

ghost use Rattle.std.specs.Prelude.{◌≡◌, not, ◌+◌, ◌*◌, ◌≤◌, length};
ghost use Rattle.tag.specs.Bytes.{run};
ghost use Rattle.tag.specs.Judge.{equal_at};
ghost use Rattle.type3.specs.Update.{blocks_for};
ghost use Rattle.type3.specs.Views.Kept.{set_for};

use crate::{read, space};
use tag::{Address, Block, kept};

// Whether `work` equals `image` at every byte that writing a message of `n` bytes does not set. Between WriteFlag and the end of
// the message's blocks, only RWFlag is not set.
pub fn is_kept(image: &[u8], work: &[u8], n: usize) -> bool
    requires { (16 + 16 * blocks_for n ≤ length image.now) × (length image.now ≤ 4096) × (length work.now ≡ length image.now) }
    ensures { result ≡ equal_at (λ a. not (set_for n a)) image.now work.now (run 0 (length image.now)) }
{
    let end = Block(1 + space::blocks_for(n)).address(read::BLOCK_SIZE);
    kept::is_kept_outside(image, work, Address(read::WRITE_FLAG), end)
        && work[read::RW_FLAG] == image[read::RW_FLAG]
}
