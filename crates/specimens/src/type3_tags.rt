// Type 3 tags of fourteen blocks, given by their attribute information block. All other bytes are 00h.
// Each type has its own: Type 3's calls take an IDm, and Type 6's images have any length.

use crate::{images, print};
use std::io;

const IDM: [u8; 8] = [1, 2, 3, 4, 5, 6, 7, 8];

fn tag(attributes: &[u8]) -> [u8; 224] {
    images::image(0, attributes)
}

pub fn read(rt: &impl Print, name: &str, attributes: &[u8]) -> io::Result<()> {
    let image = tag(attributes);
    let answer = type3::read::read(&image);
    print!(rt; "{name}: ")?;
    print::reading(rt, answer, type3::read::shown(&image, answer))
}

pub fn write(rt: &impl Print, name: &str, attributes: &[u8], message: &[u8]) -> io::Result<()> {
    let mut list = [0u8; 1024];
    print!(rt; "{name}: ")?;
    print::count(
        rt,
        type3_write::write::write(&tag(attributes), message, &IDM, &mut list),
    )
}

pub fn judge(
    rt: &impl Print,
    name: &str,
    attributes: &[u8],
    message: &[u8],
    list: &[u8],
) -> io::Result<()> {
    print!(rt; "{name}: ")?;
    print::verdict(
        rt,
        judge::type3_lists::judge(&tag(attributes), message, &IDM, list),
    )
}
