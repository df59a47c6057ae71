// Prints one line for each answer.

use printing::Hex;
use std::io;
use tag::{Content, Fault, Refusal, Report};

pub fn reading(rt: &impl Print, answer: Result<Report, Refusal>, shown: &[u8]) -> io::Result<()> {
    let report = match answer {
        Ok(report) => report,
        Err(refusal) => return println!(rt; "refused {refusal}"),
    };
    let capacity = report.capacity;
    match report.content {
        Content::Message {
            address,
            length,
            interrupted,
        } => {
            let interrupted = if interrupted { " interrupted," } else { "" };
            println!(rt;
                "message at {}, {length} bytes,{interrupted} capacity {capacity}: {}",
                address.0,
                Hex(shown)
            )
        }
        Content::Empty => println!(rt; "empty, capacity {capacity}"),
        Content::BeingWritten => println!(rt; "being written, capacity {capacity}"),
    }
}

pub fn count(rt: &impl Print, answer: Result<usize, Refusal>) -> io::Result<()> {
    match answer {
        Ok(count) => println!(rt; "{count} commands"),
        Err(refusal) => println!(rt; "refused {refusal}"),
    }
}

pub fn verdict(rt: &impl Print, answer: Result<usize, Fault>) -> io::Result<()> {
    match answer {
        Ok(count) => println!(rt; "accepted, {count} commands"),
        Err(Fault { refusal, position }) => println!(rt; "refused {refusal} at {position}"),
    }
}
