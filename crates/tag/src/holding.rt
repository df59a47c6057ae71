// What a tag holds, from the answer of `read` and the part shown. The judge asks this of every tag that it reads.

ghost use Rattle.std.specs.Prelude.{◌≡◌, option_copied};
ghost use Rattle.tag.specs.Judge.{holds_as, reads_as_one_of};
ghost use Rattle.tag.specs.Answers.{read_as, held_by, is_message};
ghost use Rattle.tag.specs.Views.Held.{held_before};

use crate::{Content, Refusal, Report};

// Does the tag hold a message?
pub fn is_message(answer: Result<Report, Refusal>) -> bool
    ensures { result ≡ is_message (read_as answer) }
{
    matches!(
        answer,
        Ok(Report {
            content: Content::Message { .. },
            ..
        })
    )
}

// Does the tag hold just this message?
pub fn holds(answer: Result<Report, Refusal>, shown: &[u8], message: &[u8]) -> bool
    ensures { result ≡ holds_as (held_by (read_as answer) shown.now) message.now }
{
    is_message(answer) && message == shown
}

// Does the tag read as none, as the new message, or as the old one, if there was one?
pub fn is_safe(
    answer: Result<Report, Refusal>,
    shown: &[u8],
    new: &[u8],
    old: Option<&[u8]>,
) -> bool
    ensures { result ≡ reads_as_one_of new.now (held_before (option_copied old.entry)) (held_by (read_as answer) shown.now) }
{
    match answer {
        Ok(report) => match report.content {
            Content::Message { .. } => shown == new || old.is_some_and(|old| shown == old),
            Content::Empty | Content::BeingWritten => true,
        },
        Err(_) => false,
    }
}
