// What a well-formed command stores.

ghost use Rattle.std.specs.Prelude.{◌≡◌, ◌+◌, ◌*◌, ◌<◌, ◌≤◌, ℕ, [], length, map, get_or};
ghost use Rattle.tag.specs.Stores.{puts};
ghost use Rattle.type3.specs.Codec.{stores_of};
ghost use Rattle.type3_commands.specs.Views.InPlace.{number};

use tag::Block;
use type3::read;
use type3_commands::listed::Listed;

// Stores every block that the command lists, protected or not.
// By index. Tried, and slower: zip with as_chunks. A block goes through an array: the compiler does not know that the command lies
// outside the image, and would test for it.
pub(crate) fn store_blocks(listed: &Listed<'_>, image: &mut [u8])
    requires { (k : ℕ) → k < length listed.now.elements.now → 16 * number (get_or listed.now.elements.now k []) + 16 ≤ length image.old }
    ensures { image.new ≡ puts image.old (stores_of (map number listed.now.elements.now) listed.now.blockdata.now) }
{
    for (k, [_, number]) in listed.elements.iter().enumerate() {
        let at = Block(usize::from(*number)).address(read::BLOCK_SIZE).0;
        let from = read::BLOCK_SIZE * k;
        let mut block = [0; read::BLOCK_SIZE];
        block.copy_from_slice(&listed.blockdata[from..from + read::BLOCK_SIZE]);
        image[at..at + read::BLOCK_SIZE].copy_from_slice(&block);
    }
}
