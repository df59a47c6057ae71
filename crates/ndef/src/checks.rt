// The tests of one record: refusals 31 and 32.

ghost use Rattle.std.specs.Prelude.{◌≡◌, ◌<◌, ◌≤◌, cond, length, IfOk, MatchResult};
ghost use Rattle.tag.specs.Answers.{number_of};
ghost use Rattle.tag.specs.Checks.{fine, fault, first_of};
ghost use Rattle.ndef.specs.Record.{tnf_allows};
ghost use Rattle.ndef.specs.Message.{record_checks};
ghost use Rattle.ndef.specs.Views.Headers.{header_of, length_for};

use crate::Header;
use crate::flags::Flags;
use tag::Refusal;

// The type name formats that have a rule of their own: an empty record, and a payload of unknown type. They stay numbers:
// tnf_allows of specs/Record.antt takes one.
const EMPTY: usize = 0;

const UNKNOWN: usize = 5;

// Whether a record with this TNF may have a type, an ID and a payload of these lengths.
#[tactic(auto, unfolding(crate::specs::Record::tnf_allows))]
pub fn tnf_allows(tnf: usize, rtype: usize, id: usize, payload: usize) -> bool
    ensures { result ≡ tnf_allows tnf rtype id payload }
{
    match tnf {
        EMPTY => rtype == 0 && id == 0 && payload == 0,
        1..=4 => true,
        UNKNOWN => rtype == 0,
        _ => false,
    }
}

// The header of the record at the front of `rest`, what is left of a message, if the record may stand there. `first`: it is the message's
// first record. A chunk is known by its flags, so it is refused as one where it is cut short too.
pub(crate) fn tested_header(rest: &[u8], first: bool) -> Result<Header, Refusal>
    ensures is { MatchResult result (λ h. (h ≡ header_of rest.now) × (first_of (record_checks (cond first 1 0) rest.now) ≡ fine)) (λ e. first_of (record_checks (cond first 1 0) rest.now) ≡ fault (number_of e)) }
    ensures whole { IfOk result (λ h. (0 < length_for h) × (length_for h ≤ length rest.now)) }
{
    let [flags, ..] = rest else {
        return Err(Refusal::MalformedRecord);
    };
    if Flags(*flags).is_chunk() {
        return Err(Refusal::ChunkedRecord);
    }
    match Header::at_front(rest) {
        Some(header) if header.may_stand(rest.len(), first) => Ok(header),
        _ => Err(Refusal::MalformedRecord),
    }
}
