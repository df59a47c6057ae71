// From a URI to the payload of a URI record: the longest prefix that is a beginning of the URI.

ghost use Rattle.std.specs.Prelude.{◌≡◌, ◌≤◌, length};
ghost use Rattle.uri.specs.Prefixes.{prefix};
ghost use Rattle.uri.specs.Payload.{longest};
ghost use Rattle.uri.specs.PublicContracts.{ShortenedTo};

use crate::laying;
use crate::prefixes::PREFIXES;
use tag::Refusal;

// The code of the longest prefix that is a beginning of a URI, and the prefix's length.
fn longest(uri: &[u8]) -> (u8, usize)
    ensures code { result.0 ≡ longest uri.now }
    ensures len { result.1 ≡ length (prefix (longest uri.now)) }
    ensures inside { result.1 ≤ length uri.now }
{
    let (mut best, mut len) = (0, 0);
    for (code, prefix) in PREFIXES.iter().enumerate() {
        if prefix.len() > len && uri.starts_with(*prefix) {
            (best, len) = (code as u8, prefix.len());
        }
    }
    (best, len)
}

// Writes the payload of the URI record for a URI to the front of a buffer; the count is that of its bytes. The rest of the buffer keeps
// what it held, and so does all of it after a refusal: 12.
pub fn shorten(uri: &[u8], payload: &mut [u8]) -> Result<usize, Refusal>
    ensures { ShortenedTo uri.now payload.old result payload.new }
{
    let (code, len) = longest(uri);
    laying::put_both(&[code], &uri[len..], payload)
}
