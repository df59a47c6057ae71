// Reading a Type 3 tag: the tests of its attribute information, in the order of their refusals, and what it says of a message.

ghost use Rattle.std.specs.Prelude.{◌≡◌, not, ◌&&◌, ◌||◌, [], ◌*◌, ◌^◌, ◌<◌, ◌≤◌, eqb, length, take, sum, IfOk, Ok};
ghost use Rattle.tag.specs.Checks.{first_of};
ghost use Rattle.tag.specs.Answers.{read_as};
ghost use Rattle.tag.specs.PublicContracts.{Read, Showed};
ghost use Rattle.type3.specs.AttributeInformation.{attribute_information, attribute_checks};
ghost use Rattle.type3.specs.Message.{reading};
ghost use Rattle.type3.specs.Views.AttributeInformation.{checked_as, Says, Readable, answer_for};

use tag::{Block, Content, Refusal, Report, slices, version};

// The bytes of a block.
pub const BLOCK_SIZE: usize = 16;

// An image has at most 256 blocks.
pub const LONGEST_IMAGE: usize = 256 * BLOCK_SIZE;

// The addresses of some fields of block 0.
const NBR: usize = 1;

const NBW: usize = 2;

pub const WRITE_FLAG: usize = 9;

pub const RW_FLAG: usize = 10;

// The checksum is the sum of the bytes before it.
pub const CHECKSUM: usize = 14;

// The attribute information that the code uses.
#[derive(Clone, Copy, Debug, PartialEq, Eq)]
pub struct AttributeInformation {
    pub nbw: usize,
    pub nmaxb: usize,
    pub ln: usize,
    // WriteFlag is 0Fh
    pub busy: bool,
    // RWFlag is 01h and Nbw at least 1
    pub writable: bool,
}

// The sum of a few bytes. Sixteen bits hold it, and the compiler then adds eight bytes at once.
fn sum_few(bytes: &[u8]) -> u16
    requires { length bytes.now ≤ 16 }
    ensures { result ≡ sum bytes.now }
{
    bytes.iter().map(|b| u16::from(*b)).sum()
}

// The sum of a block's bytes, or of those of a part of it. What follows the sixteenth is not added.
pub fn sum(bytes: &[u8]) -> u16
    ensures { result ≡ sum (take 16 bytes.now) }
{
    sum_few(&bytes[..bytes.len().min(BLOCK_SIZE)])
}

// Do Nbr, WriteFlag and RWFlag have defined values?
fn flags_defined(nbr: u8, write_flag: u8, rw_flag: u8) -> bool
    ensures { result ≡ ((eqb write_flag 0x00 || eqb write_flag 0x0F) && (eqb rw_flag 0x00 || eqb rw_flag 0x01) && not (eqb nbr 0)) }
{
    nbr != 0 && matches!(write_flag, 0x00 | 0x0F) && matches!(rw_flag, 0x00 | 0x01)
}

// Nmaxb, of two bytes. The slice, not an array of block 0: `attribute_information` of the specs takes the whole image, and each
// caller would have to cut block 0 off and prove it the same.
fn nmaxb(image: &[u8]) -> usize
    requires { 16 ≤ length image.now }
    ensures { (result ≡ (attribute_information image.now).nmaxb) × (result < 65536) }
{
    usize::from(u16::from_be_bytes([image[3], image[4]]))
}

// Ln, of three bytes.
fn ln(image: &[u8]) -> usize
    requires { 16 ≤ length image.now }
    ensures { result ≡ (attribute_information image.now).ln }
{
    u32::from_be_bytes([0, image[11], image[12], image[13]]) as usize
}

// Does a tag pass the tests of its attribute information? If not: the first of the refusals 1 to 5 and 7. This does not give the
// attribute information as well: that would be returned through memory, which takes more time than to read block 0 again. Never
// inlined, so that `attribute_information` stays small enough to be.
#[inline(never)]
#[tactic(auto, using(crate::proofs::Summing::sum_is))]
fn check(image: &[u8]) -> Result<(), Refusal>
    ensures { checked_as result ≡ first_of (attribute_checks (length image.now) (attribute_information image.now)) }
{
    if image.len() < BLOCK_SIZE || LONGEST_IMAGE < image.len() || image.len() % BLOCK_SIZE != 0 {
        return Err(Refusal::ImageSize);
    }
    if sum_few(&image[..CHECKSUM]) != u16::from_be_bytes([image[14], image[15]]) {
        return Err(Refusal::NotNdef);
    }
    if !version::is_known(image[0]) {
        return Err(Refusal::UnknownVersion);
    }
    if !flags_defined(image[NBR], image[WRITE_FLAG], image[RW_FLAG]) {
        return Err(Refusal::BadAccess);
    }
    let nmaxb = nmaxb(image);
    let end = Block(1 + nmaxb).address(BLOCK_SIZE);
    if image.len() < end.0 {
        return Err(Refusal::BadDataArea);
    }
    if BLOCK_SIZE * nmaxb < ln(image) {
        return Err(Refusal::BadLength);
    }
    Ok(())
}

// What block 0 says, of any image that has one.
pub fn said(image: &[u8]) -> AttributeInformation
    requires { 16 ≤ length image.now }
    ensures { Says image.now result }
{
    AttributeInformation {
        nbw: usize::from(image[NBW]),
        nmaxb: nmaxb(image),
        ln: ln(image),
        busy: image[WRITE_FLAG] == 0x0F,
        writable: image[RW_FLAG] == 0x01 && 1 <= image[NBW],
    }
}

// What block 0 says, or the first of the refusals 1 to 5 and 7. Inlined: a call returns it through memory, and each caller uses a part.
#[inline]
pub fn attribute_information(image: &[u8]) -> Result<AttributeInformation, Refusal>
    ensures is { checked_as result ≡ first_of (attribute_checks (length image.now) (attribute_information image.now)) }
    ensures known { IfOk result (Readable image.now) }
{
    check(image)?;
    Ok(said(image))
}

impl AttributeInformation {
    // What it says of a message, and of the room for one. A Type 3 message is never interrupted.
    // Each type has its own: only Type 3 can be being written.
    fn report(self) -> Report
        requires { 16 * self.nmaxb < 2 ^ 32 }
        ensures { read_as (Ok result) ≡ answer_for self }
    {
        let content = if self.busy {
            Content::BeingWritten
        } else if self.ln == 0 {
            Content::Empty
        } else {
            Content::Message {
                address: Block(1).address(BLOCK_SIZE),
                length: self.ln,
                interrupted: false,
            }
        };
        Report {
            content,
            writable: self.writable,
            capacity: BLOCK_SIZE * self.nmaxb,
        }
    }
}

// Reads a tag. Its message is never interrupted, so there is nothing to gather.
pub fn read(image: &[u8]) -> Result<Report, Refusal>
    ensures { Read reading image.now [] result [] }
{
    let information = attribute_information(image)?;
    Ok(information.report())
}

// The message as a part of the image. It is empty without a message, after a refusal, if the answer's numbers do not fit, and if
// the answer claims that the message is interrupted.
// Each type has its own, so that a caller finds it beside read (docs/PROMISES.md names it).
pub fn shown(image: &[u8], answer: Result<Report, Refusal>) -> &[u8]
    ensures { Showed image.now [] answer result.now }
{
    slices::shown(image, &[], answer)
}
