// Whether a Type 6 tag keeps the bytes that writing a message does not set.

ghost use Rattle.std.specs.Prelude.{◌≡◌, not, ◌+◌, ◌<◌, ◌≤◌, length};
ghost use Rattle.tag.specs.Bytes.{run};
ghost use Rattle.tag.specs.Judge.{equal_at};
ghost use Rattle.type6.specs.Container.{file_by};
ghost use Rattle.type6.specs.Views.Kept.{set_for};

use crate::container;
use tag::{Address, kept};

// Whether `work` equals `image` at every byte that writing a message of `n` bytes does not set, with blocks of `size` bytes.
// Bare numbers, as the definition has them (`file_by` of specs/Container.antt).
pub fn is_kept(image: &[u8], work: &[u8], size: usize, n: usize) -> bool
    requires { (0 < size) × (size ≤ 32) × (file_by size + (2 + n) ≤ length image.now) × (length image.now ≤ 8192) × (length work.now ≡ length image.now) }
    ensures { result ≡ equal_at (λ a. not (set_for (file_by size) n a)) image.now work.now (run 0 (length image.now)) }
{
    let file = container::file_by(size);
    let stop = Address(file.0 + container::NLEN + n);
    kept::is_kept_outside(image, work, file, stop)
}
