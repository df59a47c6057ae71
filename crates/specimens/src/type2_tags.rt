// Type 2 tags, most of them of 112 bytes, given by their bytes from the capability container on. All other bytes are 00h.
// Each type has its own: Type 3's calls take an IDm, and Type 6's images have any length.

use crate::{images, print};
use std::io;
use type2::container;

fn tag(front: &[u8]) -> [u8; 112] {
    images::image(container::MAGIC, front)
}

fn read_image(rt: &impl Print, image: &[u8]) -> io::Result<()> {
    let mut gathered = [0u8; 64];
    let answer = type2::read::read(image, &mut gathered);
    print::reading(rt, answer, type2::read::shown(image, &gathered, answer))
}

pub fn read(rt: &impl Print, name: &str, front: &[u8]) -> io::Result<()> {
    print!(rt; "{name}: ")?;
    read_image(rt, &tag(front))
}

// A tag of 280 bytes on which `u` usable bytes follow the type byte. The bytes before it are NULL TLVs.
pub fn read_room(rt: &impl Print, u: usize) -> io::Result<()> {
    let mut image: [u8; 280] = images::image(container::MAGIC, b"\xE1\x10\x21\x00");
    if let Some(type_byte) = image.iter_mut().rev().nth(u) {
        *type_byte = 0x03;
    }
    print!(rt; "u = {u}: ")?;
    read_image(rt, &image)
}

pub fn write(rt: &impl Print, name: &str, front: &[u8], message: &[u8]) -> io::Result<()> {
    let mut list = [0u8; 1024];
    print!(rt; "{name}: ")?;
    print::count(
        rt,
        type2_write::write::write(&tag(front), message, &mut list),
    )
}

pub fn judge(
    rt: &impl Print,
    name: &str,
    front: &[u8],
    message: &[u8],
    list: &[u8],
) -> io::Result<()> {
    print!(rt; "{name}: ")?;
    print::verdict(rt, judge::type2_lists::judge(&tag(front), message, list))
}
