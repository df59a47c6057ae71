// Two parts laid one behind the other into the caller's buffer.

ghost use Rattle.std.specs.Prelude.{◌++◌, length};
ghost use Rattle.tag.specs.TagType.{fitted};
ghost use Rattle.tag.specs.PublicContracts.{PutOut};

use tag::{Refusal, slices};

// Stores a front and a rest at the front of a buffer; the count is that of their bytes. Without room for both the buffer keeps what it
// held, and the refusal is 12.
pub(crate) fn put_both(front: &[u8], rest: &[u8], out: &mut [u8]) -> Result<usize, Refusal>
    ensures { PutOut (λ room. fitted room (length (front.now ++ rest.now)) (front.now ++ rest.now)) out.old result out.new }
{
    // The lengths together may be too much for a number, so they are added only when they fit.
    if front.len() > out.len() || rest.len() > out.len() - front.len() {
        return Err(Refusal::ShortBuffer);
    }
    let len = front.len() + rest.len();
    slices::store(front, 0, out);
    slices::store(rest, front.len(), out);
    Ok(len)
}
