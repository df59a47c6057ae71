// The C functions for the records of a message.

ghost use Rattle.ndef.specs.Places.{read};
ghost use Rattle.ndef.specs.Writing.{write};
ghost use Rattle.zanfirotta.specs.Packed.{PutOutToC};

use crate::answers;

#[unsafe(no_mangle)]
pub extern "C" fn zan_ndef_read(message: &[u8], records: &mut [u64; ndef::TABLE]) -> u64
    ensures { PutOutToC (λ room. read message.now) records.old result records.new }
{
    answers::count(ndef::read::read(message, records))
}

#[unsafe(no_mangle)]
pub extern "C" fn zan_ndef_write(records: &[u64], bytes: &[u8], message: &mut [u8]) -> u64
    ensures { PutOutToC (λ room. write room records.now bytes.now) message.old result message.new }
{
    answers::count(ndef_write::write::write(records, bytes, message))
}
