// Looking for the first URI of a message: the public function.

ghost use Rattle.smart_poster.specs.PublicContracts.{FoundFirst};

use crate::messages;
use tag::Refusal;
use uri::expand;

// How many posters may stand inside each other.
const DEEPEST: usize = 4;

// Writes the first URI of a message to the front of a buffer; the count is that of its bytes. The rest of the buffer keeps what it held,
// and so does all of it without a URI and after a refusal: 30 to 32, 34 and 35 as met, then 12.
pub fn first(message: &[u8], buffer: &mut [u8]) -> Result<Option<usize>, Refusal>
    ensures { FoundFirst message.now buffer.old result buffer.new }
{
    match messages::message_uri(message, DEEPEST)? {
        Some(payload) => Ok(Some(expand::expand(payload, buffer)?)),
        None => Ok(None),
    }
}
