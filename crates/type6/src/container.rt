// The container of a Type 6 tag: its tests, in the order of their refusals, and what it says of the tag.

ghost use Rattle.std.specs.Prelude.{◌≡◌, suc, ◌+◌, ◌*◌, ◌<◌, ◌≤◌, length, MatchResult};
ghost use Rattle.tag.specs.Checks.{fault, first_of};
ghost use Rattle.tag.specs.Answers.{number_of};
ghost use Rattle.type6.specs.Container.{size_by, container_blocks, file_by, nlen_at, checks};
ghost use Rattle.type6.specs.Views.Container.{Readable};

use tag::{Address, Block, Refusal};

// How many bytes an image has at most.
pub const LONGEST_IMAGE: usize = 8192;

// How many bytes a block has at most.
pub const LARGEST_BLOCK: usize = 32;

// How many bytes the container has.
const LENGTH: usize = 8;

// How many bytes NLEN takes; the message follows.
pub const NLEN: usize = 2;

// What the container says of the tag, and NLEN.
#[derive(Clone, Copy, Debug, PartialEq, Eq)]
pub struct Container {
    // how many bytes a block has
    pub size: usize,
    pub blocks: usize,
    // where the file begins, with NLEN
    pub file: Address,
    // the most bytes of a message
    pub capacity: usize,
    pub nlen: usize,
    pub writable: bool,
}

// The block size that a byte states. Its top three bits are reserved.
#[tactic(auto, unfolding(crate::specs::Container::size_by))]
fn block_size(stated: u8) -> usize
    ensures { (result ≡ size_by stated) × (0 < result) × (result ≤ 32) }
{
    1 + usize::from(stated) % LARGEST_BLOCK
}

// How many blocks the container takes.
fn container_blocks(size: usize) -> usize
    requires { (0 < size) × (size ≤ 32) }
    ensures { (result ≡ container_blocks size) × (result ≤ 8) × (size * result < 40) }
{
    // The definition's quotient (container_blocks); div_ceil is another formula.
    (LENGTH + (size - 1)) / size
}

// Where the file begins.
// It stands apart for is_kept; read_container has the quotient already, and the pages of docs/ name both.
pub(crate) fn file_by(size: usize) -> Address
    requires { (0 < size) × (size ≤ 32) }
    ensures { (result.0 ≡ file_by size) × (result.0 < 40) }
{
    Block(container_blocks(size)).address(size)
}

// NLEN, low byte first.
fn nlen_at(image: &[u8], file: Address) -> usize
    requires { suc file.0 < length image.now }
    ensures { result ≡ nlen_at file.0 image.now }
{
    let at = file.0;
    usize::from(u16::from_le_bytes([image[at], image[at + 1]]))
}

// What the container and NLEN say, or the first of the refusals 1 to 5 and 7.
pub fn read_container(image: &[u8]) -> Result<Container, Refusal>
    ensures { MatchResult result (λ c. Readable image.now c) (λ e. first_of (checks image.now) ≡ fault (number_of e)) }
{
    let [n, d, e, version, blocks, size, access, most, ..] = *image else {
        return Err(Refusal::ImageSize);
    };
    if image.len() > LONGEST_IMAGE {
        return Err(Refusal::ImageSize);
    }
    if [n, d, e] != *b"NDE" {
        return Err(Refusal::NotNdef);
    }
    if version != 0x10 {
        return Err(Refusal::UnknownVersion);
    }
    if !matches!(access, 0x00 | 0xFF) {
        return Err(Refusal::BadAccess);
    }
    let size = block_size(size);
    let blocks = 1 + usize::from(blocks);
    let most = usize::from(most);
    let first = container_blocks(size);
    if image.len() != size * blocks || blocks < first + most {
        return Err(Refusal::BadDataArea);
    }
    let file = Block(first).address(size);
    let room = size * most;
    if room < NLEN {
        return Err(Refusal::BadLength);
    }
    let capacity = room - NLEN;
    let nlen = nlen_at(image, file);
    if capacity < nlen {
        return Err(Refusal::BadLength);
    }
    Ok(Container {
        size,
        blocks,
        file,
        capacity,
        nlen,
        writable: access == 0x00,
    })
}
