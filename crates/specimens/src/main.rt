// Runs specimens through the code and prints one line for each. They are the specimens that are not marked P, the detection
// examples of source document 001, appendix C, empty lists, foreign lists with each fault from 20 to 23, and those of the requests.

#![tactic(auto)]

mod images;
mod print;
mod type2_tags;
mod type3_tags;
mod type6_tags;

use std::io;

// Four skipped bytes inside the message; 38 usable bytes follow the type byte.
fn interrupted(rt: &impl Print) -> io::Result<()> {
    let front = b"\xE1\x10\x06\x00\x02\x03\x18\x04\x04\x03\x03\xD0\x11\x22\x33\x44\x00\x00\xFE";
    type2_tags::read(rt, "interrupted", front)?;
    let fits = [0xD0u8; 37];
    type2_tags::write(rt, "interrupted, 37 bytes", front, &fits)?;
    let too_long = [0xD0u8; 38];
    type2_tags::write(rt, "interrupted, 38 bytes", front, &too_long)
}

// In C.7 and C.8 the document stops before address 28. By 01 the lock area is address 24 alone, so the next type byte is at 27.
fn appendix_c(rt: &impl Print) -> io::Result<()> {
    type2_tags::read(rt, "C.2.1", b"\xE1\x10\x06\x00\x03\x03\xD0\x00\x00\xFE")?;
    type2_tags::read(rt, "C.2.2", b"\xE1\x10\x06\x00\x03\x00\xFE")?;
    type2_tags::read(
        rt,
        "C.7, then D0 00 00 FE",
        b"\xE1\x10\x0C\x00\x01\x03\xC0\x01\x31\x02\x03\xC1\x0F\x30\x03\x03\xD0\x00\x00\xFE",
    )?;
    type2_tags::read(
        rt,
        "C.7, then 00",
        b"\xE1\x10\x0C\x00\x01\x03\xC0\x01\x31\x02\x03\xC1\x0F\x30\x03\x03\x00",
    )?;
    type2_tags::read(
        rt,
        "C.8, then FE",
        b"\xE1\x10\x0C\x00\x01\x03\xC0\x01\x31\x02\x03\xC1\x0F\x30\x03\x00\xFE",
    )
}

// A message of 35 bytes, on tags of fourteen blocks that take one block and four blocks a command.
fn lengths(rt: &impl Print) -> io::Result<()> {
    let message = [0xD0u8; 35];
    type3_tags::write(
        rt,
        "35 bytes, Nbw 1",
        b"\x10\x04\x01\x00\x0D\x00\x00\x00\x00\x00\x01\x00\x00\x23\x00\x46",
        &message,
    )?;
    type3_tags::write(
        rt,
        "35 bytes, Nbw 4",
        b"\x10\x04\x04\x00\x0D\x00\x00\x00\x00\x00\x01\x00\x00\x23\x00\x49",
        &message,
    )
}

// The empty list: on a tag that reads as the message, and on another.
fn empty_lists(rt: &impl Print) -> io::Result<()> {
    type2_tags::judge(
        rt,
        "empty list, message there",
        b"\xE1\x10\x06\x00\x03\x03\xD0\x00\x00\xFE",
        b"\xD0\x00\x00",
        b"",
    )?;
    type2_tags::judge(
        rt,
        "empty list, another tag",
        b"\xE1\x10\x06\x00\x03\x00\xFE",
        b"\xD0\x00\x00",
        b"",
    )?;
    let attributes = b"\x10\x04\x01\x00\x0D\x00\x00\x00\x00\x00\x01\x00\x00\x03\x00\x26";
    type3_tags::judge(
        rt,
        "Type 3, empty list, message there",
        attributes,
        b"\x00\x00\x00",
        b"",
    )?;
    type3_tags::judge(
        rt,
        "Type 3, empty list, another tag",
        attributes,
        b"\xD0\x00\x00",
        b"",
    )
}

// Judges a list that is to write D0 00 01 to the empty tag.
fn judge_foreign(rt: &impl Print, name: &str, list: &[u8]) -> io::Result<()> {
    type2_tags::judge(
        rt,
        name,
        b"\xE1\x10\x06\x00\x03\x00\xFE",
        b"\xD0\x00\x01",
        list,
    )
}

// Foreign lists: one in another order, and one for each of 20 to 23.
fn foreign_lists(rt: &impl Print) -> io::Result<()> {
    judge_foreign(
        rt,
        "block 5 first",
        b"\xA2\x05\x01\xFE\x00\x00\xA2\x04\x03\x03\xD0\x00",
    )?;
    judge_foreign(
        rt,
        "block 3 named",
        b"\xA2\x05\x01\xFE\x00\x00\xA2\x03\xE1\x10\x06\x00",
    )?;
    judge_foreign(rt, "block 6 changed", b"\xA2\x06\x01\x00\x00\x00")?;
    judge_foreign(
        rt,
        "length first",
        b"\xA2\x04\x03\x03\xD0\x00\xA2\x05\x01\xFE\x00\x00",
    )?;
    judge_foreign(rt, "broken off", b"\xA2\x05\x01\xFE\x00\x00")
}

// E1: versions on each side of the limits. A Type 3 tag's checksum is tested first.
fn versions(rt: &impl Print) -> io::Result<()> {
    type2_tags::read(
        rt,
        "version 00h",
        b"\xE1\x00\x06\x00\x03\x03\xD0\x00\x00\xFE",
    )?;
    type2_tags::read(
        rt,
        "version 01h",
        b"\xE1\x01\x06\x00\x03\x03\xD0\x00\x00\xFE",
    )?;
    type2_tags::read(
        rt,
        "version 0Fh",
        b"\xE1\x0F\x06\x00\x03\x03\xD0\x00\x00\xFE",
    )?;
    type2_tags::read(
        rt,
        "version 11h",
        b"\xE1\x11\x06\x00\x03\x03\xD0\x00\x00\xFE",
    )?;
    type2_tags::read(
        rt,
        "version 1Fh",
        b"\xE1\x1F\x06\x00\x03\x03\xD0\x00\x00\xFE",
    )?;
    type2_tags::read(
        rt,
        "version 20h",
        b"\xE1\x20\x06\x00\x03\x03\xD0\x00\x00\xFE",
    )?;
    type3_tags::read(
        rt,
        "Type 3, version 00h",
        b"\x00\x04\x01\x00\x0D\x00\x00\x00\x00\x00\x01\x00\x00\x03\x00\x16",
    )?;
    type3_tags::read(
        rt,
        "Type 3, version 01h",
        b"\x01\x04\x01\x00\x0D\x00\x00\x00\x00\x00\x01\x00\x00\x03\x00\x17",
    )?;
    type3_tags::read(
        rt,
        "Type 3, version 0Fh",
        b"\x0F\x04\x01\x00\x0D\x00\x00\x00\x00\x00\x01\x00\x00\x03\x00\x25",
    )?;
    type3_tags::read(
        rt,
        "Type 3, version 11h",
        b"\x11\x04\x01\x00\x0D\x00\x00\x00\x00\x00\x01\x00\x00\x03\x00\x27",
    )?;
    type3_tags::read(
        rt,
        "Type 3, version 1Fh",
        b"\x1F\x04\x01\x00\x0D\x00\x00\x00\x00\x00\x01\x00\x00\x03\x00\x35",
    )?;
    type3_tags::read(
        rt,
        "Type 3, version 20h",
        b"\x20\x04\x01\x00\x0D\x00\x00\x00\x00\x00\x01\x00\x00\x03\x00\x36",
    )?;
    type3_tags::read(
        rt,
        "Type 3, version 20h, wrong checksum",
        b"\x20\x04\x01\x00\x0D\x00\x00\x00\x00\x00\x01\x00\x00\x03\x00\x37",
    )
}

// E2: the examples of source document 003, appendix A, and cards on each side of the limits.
fn cards(rt: &impl Print) -> io::Result<()> {
    type6_tags::read(
        rt,
        "A.1",
        128,
        b"NDE\x10\x1F\x03\x00\x1E\x03\x00\xD0\x00\x00",
    )?;
    type6_tags::read(
        rt,
        "A.2",
        128,
        b"NDE\x10\x1F\x03\x00\x1E\x12\x00\xD1\x01\x0E\x55\x01nfc-forum.org",
    )?;
    type6_tags::read(rt, "7 bytes", 7, b"NDE\x10\x1F\x03\x00")?;
    type6_tags::read(rt, "NDF", 128, b"NDF\x10\x1F\x03\x00\x1E")?;
    type6_tags::read(rt, "Type 6, version 11h", 128, b"NDE\x11\x1F\x03\x00\x1E")?;
    type6_tags::read(rt, "access 0Fh", 128, b"NDE\x10\x1F\x03\x0F\x1E")?;
    type6_tags::read(rt, "one block short", 124, b"NDE\x10\x1F\x03\x00\x1E")?;
    type6_tags::read(rt, "MAX_LEN 31 of 30", 128, b"NDE\x10\x1F\x03\x00\x1F")?;
    type6_tags::read(rt, "MAX_LEN 0", 128, b"NDE\x10\x1F\x03\x00\x00")?;
    type6_tags::read(rt, "NLEN over m", 128, b"NDE\x10\x1F\x03\x00\x1E\x77\x00")?;
    type6_tags::read(
        rt,
        "blocks of 3",
        15,
        b"NDE\x10\x04\x02\x00\x02\xAA\x01\x00\xBB",
    )
}

// Writing the longest message that fits, and one of a byte more.
fn card_lengths(rt: &impl Print) -> io::Result<()> {
    let card = b"NDE\x10\x1F\x03\x00\x1E";
    let fits = [0xD0u8; 118];
    type6_tags::write(rt, "118 bytes of 118", 128, card, &fits)?;
    let too_long = [0xD0u8; 119];
    type6_tags::write(rt, "119 bytes of 118", 128, card, &too_long)
}

// Writing to cards with blocks of one byte, and judging lists.
fn card_lists(rt: &impl Print) -> io::Result<()> {
    let card = b"NDE\x10\x1F\x03\x00\x1E";
    type6_tags::write(
        rt,
        "blocks of 1, too long",
        11,
        b"NDE\x10\x0A\x00\x00\x03",
        b"\xD0\xD0",
    )?;
    type6_tags::write(
        rt,
        "blocks of 1, read-only",
        11,
        b"NDE\x10\x0A\x00\xFF\x03",
        b"\xD0",
    )?;
    type6_tags::judge(
        rt,
        "one command",
        card,
        b"\xD0\x01",
        b"\x02\x21\x02\x02\x00\xD0\x01",
    )?;
    type6_tags::judge(
        rt,
        "flags 04h",
        card,
        b"\xD0\x01",
        b"\x04\x21\x02\x02\x00\xD0\x01",
    )?;
    type6_tags::judge(
        rt,
        "container changed",
        card,
        b"\xD0\x01",
        b"\x02\x21\x00NDF\x10",
    )?;
    type6_tags::judge(
        rt,
        "another length",
        card,
        b"\xD0\x01",
        b"\x02\x21\x02\x01\x00\xD0\x01",
    )
}

// E3: the capacity on each side of its limits.
fn capacities_by_room(rt: &impl Print) -> io::Result<()> {
    type2_tags::read_room(rt, 1)?;
    type2_tags::read_room(rt, 47)?;
    type2_tags::read_room(rt, 254)?;
    type2_tags::read_room(rt, 255)?;
    type2_tags::read_room(rt, 256)?;
    type2_tags::read_room(rt, 257)?;
    type2_tags::read_room(rt, 258)
}

// The capacity of read-only tags, of one being written, and of a card with blocks of one byte.
fn capacities_by_state(rt: &impl Print) -> io::Result<()> {
    type2_tags::read(rt, "read-only", b"\xE1\x10\x06\x0F\x03\x03\xD0\x00\x00\xFE")?;
    type3_tags::read(
        rt,
        "Type 3, read-only",
        b"\x10\x04\x01\x00\x0D\x00\x00\x00\x00\x00\x00\x00\x00\x03\x00\x25",
    )?;
    type3_tags::read(
        rt,
        "Type 3, WriteFlag 0Fh",
        b"\x10\x04\x01\x00\x0D\x00\x00\x00\x00\x0F\x01\x00\x00\x03\x00\x35",
    )?;
    type6_tags::read(
        rt,
        "Type 6, read-only",
        128,
        b"NDE\x10\x1F\x03\xFF\x1E\x03\x00\xD0\x00\x00",
    )?;
    type6_tags::read(
        rt,
        "Type 6, blocks of 1",
        11,
        b"NDE\x10\x0A\x00\x00\x03\x01\x00\xD0",
    )
}

fn main(rt: HostRuntime) -> io::Result<()> {
    interrupted(&rt)?;
    appendix_c(&rt)?;
    lengths(&rt)?;
    empty_lists(&rt)?;
    foreign_lists(&rt)?;
    versions(&rt)?;
    cards(&rt)?;
    card_lengths(&rt)?;
    card_lists(&rt)?;
    capacities_by_room(&rt)?;
    capacities_by_state(&rt)
}
