// Reading the message of a tag that has a TLV area, once the tests of its type have passed.

ghost use Rattle.std.specs.Prelude.{◌≡◌, MatchResult, ◌≤◌, ◌<◌, length};
ghost use Rattle.tag.specs.Answers.{number_of};
ghost use Rattle.tag.specs.Refusals.{bad_length};
ghost use Rattle.tag.specs.Reading.{reads};
ghost use Rattle.tag.specs.PublicContracts.{ReadOf};
ghost use Rattle.tlv.specs.Views.Counted.{Declared};
ghost use Rattle.tlv.specs.Walk.{length_of};
ghost use Rattle.tlv.specs.Views.Walks.{ahead, Within};
ghost use Rattle.tlv_tag.specs.Message.{locate_by, report_of};
ghost use Rattle.tlv_tag.specs.Views.BlankArea.{BlankArea};
ghost use Rattle.tlv_tag.specs.Views.Reading.{area_located, located_as, Held, value_addresses, ValueHeld, LocatedAt, LocatedPlaced};

use tag::{Address, Content, Refusal, Report};
use tlv::walk::Walk;
use tlv_value::value;

// The message TLV, located.
#[derive(Clone, Copy, Debug, PartialEq, Eq)]
pub struct Located {
    // the walk past its type byte
    pub field: Walk,
    // the walk past its length
    pub value: Walk,
    // its value, which is empty or a message
    pub content: Content,
}

// What a value of `n` bytes from the walk's place on holds. A value of length 0 reads as empty.
fn content_of(walk: Walk, n: usize, table: &[u16]) -> Result<Content, Refusal>
    requires { Within table.now walk }
    ensures { MatchResult result (λ content. Held (ahead table.now walk) n content) (λ refusal. (number_of refusal ≡ bad_length) × (length (ahead table.now walk) < n)) }
{
    if n == 0 {
        return Ok(Content::Empty);
    }
    let value = value::measure(walk, n, table).ok_or(Refusal::BadLength)?;
    Ok(Content::Message {
        address: value.address,
        length: n,
        interrupted: value.interrupted,
    })
}

// The message TLV whose type byte the walk has just passed.
#[tactic(auto, unfolding(crate::specs::Message::locate_by))]
fn locate_at(field: Walk, image: &[u8], table: &[u16]) -> Result<Located, Refusal>
    requires { (field.end.0 ≤ length image.now) × Within table.now field }
    ensures is { located_as table.now result ≡ locate_by (ahead table.now field) (length_of image.now (ahead table.now field)) }
    ensures placed { LocatedAt image.now table.now field result }
{
    let (n, value) = field.take_length(image, table).ok_or(Refusal::BadLength)?;
    let content = content_of(value, n, table)?;
    Ok(Located {
        field,
        value,
        content,
    })
}

// Locates the message in the data area from `first` up to `end`. The skip table passed in is all zeros.
#[tactic(auto, using(crate::proofs::Fitting::from_start))]
pub fn locate(
    image: &[u8],
    table: &mut [u16],
    first: Address,
    end: Address,
) -> Result<Located, Refusal>
    requires { BlankArea image.now table.old first.0 end.0 }
    ensures is { located_as table.new result ≡ area_located image.now first.0 end.0 }
    ensures placed { LocatedPlaced image.now table.new first.0 end.0 result }
    ensures table { Declared first.0 end.0 table.old table.new }
{
    let (_, field) = Walk::new(first, end).find_message(first, image, table)?;
    locate_at(field, image, table)
}

impl Located {
    // The report of a tag with that capacity. An interrupted message is gathered, unless the buffer is too short.
    // Writability and capacity are arguments: the judge's reading leaves the capacity out, and `Located` has neither.
    pub fn report(
        self,
        image: &[u8],
        table: &[u16],
        gathered: &mut [u8],
        writable: bool,
        capacity: usize,
    ) -> Result<Report, Refusal>
        requires { ValueHeld image.now table.now self }
        ensures { ReadOf (reads (report_of writable capacity image.now (value_addresses table.now self))) gathered.old result gathered.new }
    {
        let report = Report {
            content: self.content,
            writable,
            capacity,
        };
        match self.content {
            Content::Message {
                length,
                interrupted,
                ..
            } => {
                if !interrupted {
                    return Ok(report);
                }
                if gathered.len() < length {
                    return Err(Refusal::ShortGatheringBuffer);
                }
                value::gather(self.value, length, image, table, gathered);
                Ok(report)
            }
            Content::Empty | Content::BeingWritten => Ok(report),
        }
    }
}
