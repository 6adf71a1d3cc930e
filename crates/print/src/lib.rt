#![tactic(auto)]
// The lines that the programs print of an answer, to any writer.
ghost use Rattle.std.specs.Io.{ReadsAtMost};
ghost use Rattle.reader.specs.declared.Answer.{Answer};
ghost use Rattle.reader.specs.Read.{Reads};

use std::io::{self, Write};

// The numbers of a record.
const WIDTH: usize = 7;

// After the number at i of a table: its line goes on, or ends with the record.
fn after<W: Write>(out: &mut W, i: usize) -> io::Result<()> {
    if i % WIDTH == WIDTH - 1 {
        writeln!(out)
    } else {
        write!(out, " ")
    }
}

// A line for each record.
fn records<W: Write>(out: &mut W, b: &[u16]) -> io::Result<()> {
    for (i, n) in b.iter().enumerate() {
        write!(out, "{n}")?;
        after(out, i)?;
    }
    Ok(())
}

// Two hexadecimal digits for each byte, and the end of the line.
pub fn bytes<W: Write>(out: &mut W, b: &[u8]) -> io::Result<()> {
    for x in b {
        write!(out, "{x:02x}")?;
    }
    writeln!(out)
}

// Reads a source and prints the answer's kind, its place, and how many records and text bytes there are, then a line for each record. Gives back how many text bytes there are; a refusal has none.
// An error is one that `out` gave; the lent room is as `read` left it, then too.
pub fn reading<W: Write>(
    out: &mut W,
    source: &[u8],
    nodes: &mut [u16],
    text: &mut [u8],
) -> io::Result<usize>
    ensures counts { ReadsAtMost result text.new }
    ensures left { (a : Answer) × Reads source.now nodes.old nodes.new text.old text.new a }
{
    let a = reader::read(source, nodes, text);
    writeln!(out, "{} {} {} {}", a.kind, a.place, a.nodes, a.text)?;
    if a.kind == 0 {
        let end = a.nodes * WIDTH;
        records(out, &nodes[0..end])?;
        return Ok(a.text);
    }
    Ok(0)
}
