// Bytes as the programs print them.
#![tactic(auto)]

use std::fmt;

// Prints as two hexadecimal digits a byte, with spaces between the bytes.
#[derive(Clone, Copy, Debug, PartialEq, Eq)]
pub struct Hex<'a>(pub &'a [u8]);

impl fmt::Display for Hex<'_> {
    fn fmt<W: fmt::Write>(&self, f: &mut fmt::Formatter<W>) -> fmt::Result {
        let mut space = "";
        for byte in self.0 {
            write!(f, "{space}{byte:02X}")?;
            space = " ";
        }
        Ok(())
    }
}
