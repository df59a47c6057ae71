// Reading a message: the headers of its records, or a table of their places.
//
// All records are tested before the first number of the table is written, so a refusal leaves the table as it was.

ghost use Rattle.std.specs.Prelude.{◌≡◌, MatchResult};
ghost use Rattle.tag.specs.Answers.{number_of};
ghost use Rattle.ndef.specs.Message.{refused, message_of};
ghost use Rattle.ndef.specs.PublicContracts.{ReadRecords};
ghost use Rattle.ndef.specs.Views.Headers.{Headed};

use crate::{Header, MOST, NUMBERS, TABLE, checks};
use arrayvec::ArrayVec;
use tag::Refusal;

// Puts the headers of a message's records in the vector, in place of what it held. The vector is lent, because one that is returned is
// copied twice.
pub fn headers(message: &[u8], headers: &mut ArrayVec<Header, MOST>) -> Result<(), Refusal>
    ensures { MatchResult result (λ _. Headed message.now headers.new.items) (λ e. message_of message.now ≡ refused (number_of e)) }
{
    if message.is_empty() {
        return Err(Refusal::MalformedRecord);
    }
    headers.clear();
    let mut rest = message;
    // A loop: where a record starts is known only from the header before it.
    while !rest.is_empty() {
        if headers.is_full() {
            return Err(Refusal::TooManyRecords);
        }
        let header = checks::tested_header(rest, headers.is_empty())?;
        headers.push(header);
        rest = &rest[header.record_len()..];
    }
    Ok(())
}

// Reads a message: how many records it has, and at the front of the table their places, seven numbers a record. The rest of the table
// keeps what it held, and so does all of it after a refusal.
// A table and a count: the table is the C interface's, and ReadRecords of specs/PublicContracts.antt speaks of both.
pub fn read(message: &[u8], table: &mut [u64; TABLE]) -> Result<usize, Refusal>
    ensures { ReadRecords message.now table.old result table.new }
{
    let mut records = ArrayVec::new();
    headers(message, &mut records)?;
    let mut at = 0;
    for (k, header) in records.iter().enumerate() {
        let numbers: [u64; NUMBERS] = header.place(at).into();
        // Tried, and slower: `copy_from_slice`, 176 ns for sixteen records in place of 131, where 145 was the bar. Of `as_chunks_mut` the library
        // does not say what the table holds afterwards.
        for (i, number) in numbers.iter().enumerate() {
            table[NUMBERS * k + i] = *number;
        }
        at += header.record_len();
    }
    Ok(records.len())
}
