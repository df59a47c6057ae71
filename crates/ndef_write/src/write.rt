// Writing records: the public function.

ghost use Rattle.ndef.specs.PublicContracts.{WroteRecords};

use crate::{laying, sizes};
use ndef::NUMBERS;
use tag::Refusal;

// Writes the records of a table, whose parts lie in `bytes`, as a message in the shortest form; the count is that of its bytes. The
// rest of the buffer keeps what it held, and so does all of it after a refusal: 33, then 12.
pub fn write(table: &[u64], bytes: &[u8], message: &mut [u8]) -> Result<usize, Refusal>
    ensures { WroteRecords table.now bytes.now message.old result message.new }
{
    let (rows, []) = table.as_chunks::<NUMBERS>() else {
        return Err(Refusal::UnwritableRecords);
    };
    let size = sizes::message_size(rows, bytes).ok_or(Refusal::UnwritableRecords)?;
    if message.len() < size {
        return Err(Refusal::ShortBuffer);
    }
    laying::put_records(rows, bytes, message);
    Ok(size)
}
