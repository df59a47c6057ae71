// From the payload of a URI record to the URI.

ghost use Rattle.std.specs.Prelude.{◌≡◌};
ghost use Rattle.uri.specs.Payload.{uri_of, is_uri};
ghost use Rattle.uri.specs.PublicContracts.{ExpandedTo};

use crate::laying;
use crate::prefixes::{self, PREFIXES};
use tag::Refusal;

// Whether a payload stands for a URI: it has a code, and a known one.
pub fn is_uri(payload: &[u8]) -> bool
    ensures { result ≡ is_uri (uri_of payload.now) }
{
    matches!(payload, [code, ..] if usize::from(*code) < PREFIXES.len())
}

// Writes the URI that a payload stands for to the front of a buffer; the count is that of its bytes. The rest of the buffer keeps what it
// held, and so does all of it after a refusal: 34, then 12.
pub fn expand(payload: &[u8], uri: &mut [u8]) -> Result<usize, Refusal>
    ensures { ExpandedTo payload.now uri.old result uri.new }
{
    let [code, rest @ ..] = payload else {
        return Err(Refusal::BadUri);
    };
    let prefix = prefixes::prefix(*code).ok_or(Refusal::BadUri)?;
    laying::put_both(prefix, rest, uri)
}
