// Slices: the part of two lent ones that shows a tag's message, and storing one in another.

ghost use Rattle.std.specs.Prelude.{◌≡◌, ◌+◌, ◌≤◌, length};
ghost use Rattle.std.proofs.lemmas.List.Edits.{sets};
ghost use Rattle.tag.specs.Reading.{part, shown};
ghost use Rattle.tag.specs.Answers.{read_as};
ghost use Rattle.tag.specs.PublicContracts.{Showed};

use crate::{Content, Refusal, Report};

// The `len` bytes of a slice from `start` on, or the empty part if they do not all lie in the slice.
fn part(s: &[u8], start: usize, len: usize) -> &[u8]
    ensures { result.now ≡ part start len s.now }
{
    match s.split_at_checked(start) {
        Some((_, rest)) if len <= rest.len() => &rest[..len],
        _ => &[],
    }
}

impl Report {
    // The part to show of a tag that reads.
    fn shown<'a>(&self, image: &'a [u8], gathered: &'a [u8]) -> &'a [u8]
        ensures { result.now ≡ shown image.now gathered.now (read_as (Ok self.now)) }
    {
        match self.content {
            Content::Message {
                address,
                length,
                interrupted,
            } => {
                if interrupted {
                    part(gathered, 0, length)
                } else {
                    part(image, address.0, length)
                }
            }
            Content::Empty | Content::BeingWritten => &[],
        }
    }
}

// The part to show after an answer of `read`. It is a part of the image or, if the message is interrupted, of the gathered copy. It
// is empty without a message, after a refusal, and where the answer's address and length lie outside the slice.
pub fn shown<'a>(image: &'a [u8], gathered: &'a [u8], answer: Result<Report, Refusal>) -> &'a [u8]
    ensures { Showed image.now gathered.now answer result.now }
{
    match answer {
        Ok(report) => report.shown(image, gathered),
        Err(_) => &[],
    }
}

// Stores the bytes of `from` in `to`, from `at` on. A loop: where the number of bytes is known only then, `copy_from_slice` is a call of
// `memmove`, which whoever links the archive for C would have to bring.
pub fn store(from: &[u8], at: usize, to: &mut [u8])
    requires { at + length from.now ≤ length to.old }
    ensures { to.new ≡ sets to.old at from.now }
{
    for (k, byte) in from.iter().enumerate() {
        to[at + k] = *byte;
    }
}
