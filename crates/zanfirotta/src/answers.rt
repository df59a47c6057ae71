// The library's answers, each as one number: a refusal in the low byte, and a count or a position above it.
// Numbers, because C has neither Option nor Result.

ghost use Rattle.std.specs.Prelude.{◌≡◌, []};
ghost use Rattle.tag.specs.Refusals.{refusal_at};
ghost use Rattle.tag.specs.Answers.{number_of, read_as, count_as, verdict_as, model_as};
ghost use Rattle.smart_poster.specs.First.{told_as};
ghost use Rattle.zanfirotta.specs.Packed.{above, packed_refusal, packed_count, packed_verdict, packed_storing, packed_read, report_into, packed_told, flag_into};

use tag::{Content, Fault, Refusal, Report};

// 2^56: a count below it fits above the low byte.
const COUNTS: usize = 72057594037927936;

// A count or a position, above the low byte.
fn above(n: usize) -> u64
    ensures { result ≡ above n }
{
    256 * ((n % COUNTS) as u64)
}

// A refusal of a call that takes one command at most: its position is 0.
pub(crate) fn refusal(refusal: Refusal) -> u64
    ensures { result ≡ packed_refusal (refusal_at (number_of refusal) 0) }
{
    u64::from(u8::from(refusal))
}

pub(crate) fn count(answer: Result<usize, Refusal>) -> u64
    ensures { result ≡ packed_count (count_as answer) }
{
    answer.map_or_else(refusal, above)
}

pub(crate) fn verdict(answer: Result<usize, Fault>) -> u64
    ensures { result ≡ packed_verdict (verdict_as answer) }
{
    match answer {
        Ok(n) => above(n),
        Err(fault) => refusal(fault.refusal) + above(fault.position),
    }
}

pub(crate) fn storing(answer: Result<(), Refusal>) -> u64
    ensures { result ≡ packed_storing (model_as answer) }
{
    answer.map_or_else(refusal, |()| 0)
}

// What a tag that reads says of itself, as six numbers.
fn six_numbers(report: Report) -> [u64; 6]
    ensures { result ≡ report_into [] (read_as (Ok report)) }
{
    let (content, address, length, interrupted) = match report.content {
        Content::Message {
            address,
            length,
            interrupted,
        } => (1, address.0, length, interrupted),
        Content::Empty => (2, 0, 0, false),
        Content::BeingWritten => (3, 0, 0, false),
    };
    [
        content,
        address as u64,
        length as u64,
        u64::from(interrupted),
        u64::from(report.writable),
        report.capacity as u64,
    ]
}

// Reading's answer; what the tag says of itself goes to `out`.
pub(crate) fn reading(answer: Result<Report, Refusal>, out: &mut [u64; 6]) -> u64
    ensures is { result ≡ packed_read (read_as answer) }
    ensures stored { out.new ≡ report_into out.old (read_as answer) }
{
    match answer {
        Ok(report) => {
            *out = six_numbers(report);
            0
        }
        Err(unread) => refusal(unread),
    }
}

// The answer of looking for the first URI; whether there is one goes to `found`.
pub(crate) fn first_uri(answer: Result<Option<usize>, Refusal>, found: &mut u64) -> u64
    ensures is { result ≡ packed_told (told_as answer) }
    ensures stored { found.new ≡ flag_into found.old (told_as answer) }
{
    match answer {
        Ok(length) => {
            *found = u64::from(length.is_some());
            length.map_or(0, above)
        }
        Err(r) => refusal(r),
    }
}
