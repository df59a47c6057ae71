// Reads a Type 2 image from tag.bin and a message from message.bin and prints the write list, or the refusal.
//
// A file that cannot be opened counts as empty. The buffers are longer than any image or message that is not refused for its
// length. A file that is longer than its buffer is therefore refused just as the whole file would be.

#![tactic(auto)]

ghost use Rattle.std.specs.Prelude.{◌≡◌, ◌≤◌, length, take};

use printing::Hex;
use std::fs::File;
use std::io;
use std::io::Read;
use std::rt::Files;
use type2::{commands, container};

// One byte more than the longest image.
const IMAGE: usize = container::LONGEST_IMAGE + 1;

// Prints how many commands the list has, and the first `count` commands, one a line.
fn print_list(rt: &impl Print, list: &[u8], count: usize) -> io::Result<()> {
    println!(rt; "{count} commands")?;
    for command in list.chunks_exact(commands::LENGTH).take(count) {
        println!(rt; "{}", Hex(command))?;
    }
    Ok(())
}

fn print_answer(rt: &impl Print, image: &[u8], message: &[u8], list: &mut [u8]) -> io::Result<()> {
    match type2_write::write::write(image, message, list) {
        Ok(count) => print_list(rt, list, count),
        Err(refusal) => println!(rt; "refused {refusal}"),
    }
}

// Reads to the front of `buf` until it is full, the input ends or a read fails, and answers how many bytes it has read.
fn fill(input: &mut impl Read, buf: &mut [u8]) -> usize
    ensures in_bounds { result ≤ length buf.new }
    ensures prefix { result ≡ length (take result buf.new) }
{
    let mut done = 0usize;
    // No heap for read_to_end, and read_exact does not say how much it has read.
    while done < buf.len() {
        match input.read(&mut buf[done..]) {
            Ok(0) => return done,
            Ok(n) => done += n,
            Err(_) => return done,
        }
    }
    done
}

// Reads a file to the front of `buf` and answers how many bytes it has read.
fn load(rt: &impl Files, path: &str, buf: &mut [u8]) -> usize
    ensures in_bounds { result ≤ length buf.new }
    ensures prefix { result ≡ length (take result buf.new) }
{
    match File::open(rt, path) {
        Ok(mut file) => fill(&mut file, buf),
        Err(_) => 0,
    }
}

fn main(rt: HostRuntime) -> io::Result<()> {
    // No heap: a file is read into a fixed array, and load answers how much of it is used.
    let mut image = [0u8; IMAGE];
    let n = load(&rt, "tag.bin", &mut image);
    let mut message = [0u8; 2048];
    let m = load(&rt, "message.bin", &mut message);
    let mut list = [0u8; 2048];
    print_answer(&rt, &image[..n], &message[..m], &mut list)
}
