// A table that areas made, where the walk counts another number of them or the search is given an end inside one: what is found, the
// length, the value and the report are those of the usable bytes all the same.
//
// The data area begins at 16. Its memory control TLV (02h) takes out the addresses 24 and 25; the message TLV begins at 21.

use crate::read;
use crate::read::Located;
use std::test::Fail;
use tag::{Address, Content, Report};
use tlv::table;
use tlv::table::Searched;
use tlv::walk::Walk;
use tlv_value::value;

// The message ABC, whose first byte lies in front of the area.
fn interrupted_tag() -> [u8; 64] {
    let mut image = [0; 64];
    image[16..28].copy_from_slice(&[
        0x02, 0x03, 0x30, 0x02, 0x03, 0x03, 0x03, b'A', 0x55, 0x55, b'B', b'C',
    ]);
    image
}

#[test]
fn search_inside_an_area(rt: HostRuntime) -> Result<(), Fail> {
    let mut table = [0; 64];
    read::locate(&interrupted_tag(), &mut table, Address(16), Address(64))?;
    let (at, end) = (Address(24), Address(25));
    let searched = Searched {
        address: end,
        tested: 1,
    };
    assert_eq!(rt; table::search(&table, at, end), searched);
    assert_eq!(rt; table::next_usable(&table, at, end), end);
    Ok(())
}

#[test]
fn value_by_any_count(rt: HostRuntime) -> Result<(), Fail> {
    let image = interrupted_tag();
    let mut table = [0; 64];
    let located = read::locate(&image, &mut table, Address(16), Address(64))?;
    let field = Walk {
        areas: 0,
        ..located.field
    };
    let value = Walk {
        areas: 0,
        ..located.value
    };
    assert_eq!(rt; field.take_length(&image, &table), Some((3, value)));
    let mut bytes = [0; 3];
    value::gather(value, 3, &image, &table, &mut bytes);
    assert_eq!(rt; bytes, *b"ABC");
    Ok(())
}

#[test]
fn report_by_any_count(rt: HostRuntime) -> Result<(), Fail> {
    let image = interrupted_tag();
    let mut table = [0; 64];
    let located = read::locate(&image, &mut table, Address(16), Address(64))?;
    let capacity = located.capacity(&table);
    let uncounted = Located {
        value: Walk {
            areas: 0,
            ..located.value
        },
        ..located
    };
    let mut gathered = [0; 3];
    let report = uncounted.report(&image, &table, &mut gathered, true, capacity);
    let content = Content::Message {
        address: Address(23),
        length: 3,
        interrupted: true,
    };
    assert_eq!(rt;
        report,
        Ok(Report {
            content,
            writable: true,
            capacity: 39
        })
    );
    assert_eq!(rt; gathered, *b"ABC");
    Ok(())
}

// The three bytes of the length lie on both sides of the area.
#[test]
fn long_length_by_any_count(rt: HostRuntime) -> Result<(), Fail> {
    let mut image = [0; 320];
    image[16..27].copy_from_slice(&[
        0x02, 0x03, 0x30, 0x02, 0x03, 0x03, 0xFF, 0x01, 0x55, 0x55, 0x00,
    ]);
    let mut table = [0; 320];
    let located = read::locate(&image, &mut table, Address(16), Address(320))?;
    let uncounted = Walk {
        areas: 0,
        ..located.field
    };
    let past = Walk {
        at: Address(27),
        ..uncounted
    };
    assert_eq!(rt; uncounted.take_length(&image, &table), Some((256, past)));
    Ok(())
}
