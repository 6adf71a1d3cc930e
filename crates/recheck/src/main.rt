#![tactic(auto)]
// Reads triples of a source, a table and a text from standard input, behind their three lengths, and prints for each whether the table and the text are the
// reading of the source: 1 or 0.
use std::io::{self, Read, Write};

// A source that is too long to be read has the room too; a longer one ends the program.
const SOURCE: usize = 1048576;

// Seven numbers for each of 65,536 nodes: one node more than a reading can have.
const TABLE: usize = 458752;

// The bytes of the table, two for a number.
const BYTES: usize = 917504;

const TEXT: usize = 1048576;

// Standard input may have no end, and a program does: so many triples at most.
const TRIPLES: u32 = 4294967295;

// Puts the bytes of a table together, two to a number.
fn numbers(bytes: &[u8], table: &mut [u16]) {
    for (n, two) in table.iter_mut().zip(bytes.chunks_exact(2)) {
        *n = u16::from_le_bytes([two[0], two[1]]);
    }
}

// An answer and its line end are one write: who reads answers as they come sees whole lines.
fn show<W: Write>(out: &mut W, source: &[u8], table: &[u16], text: &[u8]) -> io::Result<()> {
    if checker::check(source, table, text) {
        out.write_all(b"1\n")
    } else {
        out.write_all(b"0\n")
    }
}

// Reads one triple into parts that have its lengths, and shows it; false where the input does not hold it.
fn triple<R: Read, W: Write>(
    from: &mut R,
    out: &mut W,
    source: &mut [u8],
    bytes: &mut [u8],
    table: &mut [u16],
    text: &mut [u8],
) -> io::Result<bool> {
    if !input::fills(from, source)? || !input::fills(from, bytes)? || !input::fills(from, text)? {
        return Ok(false);
    }
    numbers(bytes, table);
    show(out, source, table, text)?;
    Ok(true)
}

// Reads the three lengths and then the triple; false where the input does not hold one, or there is no room for it.
fn one<R: Read, W: Write>(
    from: &mut R,
    out: &mut W,
    source: &mut [u8],
    bytes: &mut [u8],
    table: &mut [u16],
    text: &mut [u8],
) -> io::Result<bool> {
    let Some(s) = input::length(from)? else {
        return Ok(false);
    };
    let Some(n) = input::length(from)? else {
        return Ok(false);
    };
    let Some(t) = input::length(from)? else {
        return Ok(false);
    };
    if source.len() < s || table.len() < n || text.len() < t {
        return Ok(false);
    }
    if bytes.len() / 2 < n {
        return Ok(false);
    }
    triple(
        from,
        out,
        &mut source[0..s],
        &mut bytes[0..2 * n],
        &mut table[0..n],
        &mut text[0..t],
    )
}

fn all<R: Read, W: Write>(
    from: &mut R,
    out: &mut W,
    source: &mut [u8],
    bytes: &mut [u8],
    table: &mut [u16],
    text: &mut [u8],
) -> io::Result<()> {
    for _ in 0..TRIPLES {
        if !one(from, out, source, bytes, table, text)? {
            break;
        }
    }
    Ok(())
}

fn main(rt: HostRuntime) -> io::Result<()> {
    let mut source = [0u8; SOURCE];
    let mut bytes = [0u8; BYTES];
    let mut table = [0u16; TABLE];
    let mut text = [0u8; TEXT];
    all(
        &mut rt.reader(),
        &mut io::writer(&rt),
        &mut source,
        &mut bytes,
        &mut table,
        &mut text,
    )
}
