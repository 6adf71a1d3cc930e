#![tactic(auto)]
// Reads sources from standard input, each behind its length, and prints for each the answer, its records, its text in hex and an empty line.
use std::io::{self, Read, Write};

// A source that is Long has the room too; a longer one ends the program.
const SOURCE: usize = 1048576;

// A source has no more nodes and no more text bytes than bytes: room for everything.
const NODES: usize = 458745;

const TEXT: usize = 65535;

// Standard input may have no end, and a program does: so many sources at most.
const SOURCES: u32 = 4294967295;

fn show<W: Write>(
    out: &mut W,
    source: &[u8],
    nodes: &mut [u16],
    text: &mut [u8],
) -> io::Result<()> {
    let last = print::reading(out, source, nodes, text)?;
    print::bytes(out, &text[..last])?;
    writeln!(out)
}

// Reads one source and shows it; false where the input does not hold one.
fn one<R: Read, W: Write>(
    from: &mut R,
    out: &mut W,
    source: &mut [u8],
    nodes: &mut [u16],
    text: &mut [u8],
) -> io::Result<bool> {
    let Some(n) = input::length(from)? else {
        return Ok(false);
    };
    if source.len() < n {
        return Ok(false);
    }
    if !input::fills(from, &mut source[..n])? {
        return Ok(false);
    }
    show(out, &source[..n], nodes, text)?;
    Ok(true)
}

fn all<R: Read, W: Write>(
    from: &mut R,
    out: &mut W,
    source: &mut [u8],
    nodes: &mut [u16],
    text: &mut [u8],
) -> io::Result<()> {
    for _ in 0..SOURCES {
        if !one(from, out, source, nodes, text)? {
            break;
        }
    }
    Ok(())
}

fn main(rt: HostRuntime) -> io::Result<()> {
    let mut source = [0u8; SOURCE];
    let mut nodes = [0u16; NODES];
    let mut text = [0u8; TEXT];
    all(
        &mut rt.reader(),
        &mut io::writer(&rt),
        &mut source,
        &mut nodes,
        &mut text,
    )
}
