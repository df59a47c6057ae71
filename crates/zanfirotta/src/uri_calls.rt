// The C functions for URIs. The header calls a URI an address, as 02 does.

ghost use Rattle.uri.specs.Payload.{expand, shorten};
ghost use Rattle.zanfirotta.specs.Packed.{PutOutToC, FoundToC};

use crate::answers;

#[unsafe(no_mangle)]
pub extern "C" fn zan_uri_expand(payload: &[u8], address: &mut [u8]) -> u64
    ensures { PutOutToC (λ room. expand room payload.now) address.old result address.new }
{
    answers::count(uri::expand::expand(payload, address))
}

#[unsafe(no_mangle)]
pub extern "C" fn zan_uri_shorten(address: &[u8], payload: &mut [u8]) -> u64
    ensures { PutOutToC (λ room. shorten room address.now) payload.old result payload.new }
{
    answers::count(uri::shorten::shorten(address, payload))
}

#[unsafe(no_mangle)]
pub extern "C" fn zan_uri_first(message: &[u8], address: &mut [u8], found: &mut u64) -> u64
    ensures { FoundToC message.now address.old found.old result address.new found.new }
{
    answers::first_uri(smart_poster::first::first(message, address), found)
}
