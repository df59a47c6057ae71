// Messages and posters: the reader of a message and the reader of a record call each other, because a poster's payload is a message again.
// They answer with the payload of the first URI record, and write nothing: the URI is expanded when nothing can be refused any more but a
// short buffer.

ghost use Rattle.std.specs.Prelude.{◌≡◌};
ghost use Rattle.smart_poster.specs.Uris.{of_kind, of_poster, of_message};
ghost use Rattle.smart_poster.specs.First.{first_in};
ghost use Rattle.smart_poster.specs.Views.Findings.{kind_as, found_of, Stands};

use crate::records::RecordKind;
use arrayvec::ArrayVec;
use ndef::read;
use tag::Refusal;
use uri::expand;

// What a message gives, where `posters` may stand inside each other. The message is read whole before its records are looked at, and all
// of them are: a fault may stand behind the first URI.
#[cycle(reading)]
pub(crate) fn message_uri<'a>(
    message: &'a [u8],
    posters: usize,
) -> Result<Option<&'a [u8]>, Refusal>
    ensures is { found_of result ≡ first_in (of_message posters message.now) }
    ensures stands { Stands result }
{
    let mut headers = ArrayVec::new();
    read::headers(message, &mut headers)?;
    let mut first = None;
    let mut at = 0;
    for header in headers.iter() {
        let place = header.place(at);
        at += header.record_len();
        let kind = RecordKind::of(place.tnf, place.rtype.of(message));
        let payload = place.payload.of(message);
        first = first.or(record_uri(kind, payload, posters)?);
    }
    Ok(first)
}

// What a record of this kind gives with this payload, where `posters` may stand inside each other.
#[cycle(reading)]
fn record_uri<'a>(
    kind: RecordKind,
    payload: &'a [u8],
    posters: usize,
) -> Result<Option<&'a [u8]>, Refusal>
    ensures is { found_of result ≡ first_in (of_kind (of_poster posters) (kind_as kind) payload.now) }
    ensures stands { Stands result }
{
    // A match on the kind: of_kind of specs/Uris.antt has these cases.
    // Tried, and slower: an answer from each arm, 100 ns for a URI in four posters in place of 88, where 89 was the bar.
    let found = match kind {
        RecordKind::Uri if expand::is_uri(payload) => Some(payload),
        RecordKind::Uri => return Err(Refusal::BadUri),
        RecordKind::Poster if posters == 0 => return Err(Refusal::NestedTooDeep),
        RecordKind::Poster => message_uri(payload, posters - 1)?,
        RecordKind::Other => None,
    };
    Ok(found)
}
