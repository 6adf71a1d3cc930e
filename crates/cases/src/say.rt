// Numbers of a record, and the numbers of an answer.
use input::byte;
use std::io::{self, Write};

// The byte at k as a number; 0 past the end.
pub fn number(b: &[u8], k: usize) -> usize {
    usize::from(byte(b, k))
}

// The start of a line: the question.
pub fn first<W: Write>(out: &mut W, q: u8) -> io::Result<()> {
    write!(out, "{q}:")
}

// Between the answers at two places.
pub fn next<W: Write>(out: &mut W, more: bool) -> io::Result<()> {
    if more { write!(out, ",") } else { Ok(()) }
}

pub fn say<W: Write>(out: &mut W, n: usize) -> io::Result<()> {
    write!(out, " {n}")
}

// Yes is 1, no is 0.
pub fn flag<W: Write>(out: &mut W, yes: bool) -> io::Result<()> {
    say(out, usize::from(yes))
}

pub fn all<W: Write>(out: &mut W, b: &[u8]) -> io::Result<()> {
    for x in b {
        say(out, usize::from(*x))?;
    }
    Ok(())
}
