// Type 6 tags of at most 128 bytes, given by their length and their first bytes. All other bytes are 00h.
// Each type has its own: Type 3's calls take an IDm, and Type 6's images have any length.

use crate::{images, print};
use std::io;

fn tag(front: &[u8]) -> [u8; 128] {
    images::image(0, front)
}

pub fn read(rt: &impl Print, name: &str, n: usize, front: &[u8]) -> io::Result<()> {
    print!(rt; "{name}: ")?;
    if let Some(image) = tag(front).get(..n) {
        let answer = type6::read::read(image);
        print::reading(rt, answer, type6::read::shown(image, answer))?;
    }
    Ok(())
}

pub fn write(
    rt: &impl Print,
    name: &str,
    n: usize,
    front: &[u8],
    message: &[u8],
) -> io::Result<()> {
    let mut list = [0u8; 1024];
    print!(rt; "{name}: ")?;
    if let Some(image) = tag(front).get(..n) {
        print::count(rt, type6_write::write::write(image, message, &mut list))?;
    }
    Ok(())
}

pub fn judge(
    rt: &impl Print,
    name: &str,
    front: &[u8],
    message: &[u8],
    list: &[u8],
) -> io::Result<()> {
    print!(rt; "{name}: ")?;
    print::verdict(rt, judge::type6_lists::judge(&tag(front), message, list))
}
