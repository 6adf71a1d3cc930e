#![tactic(auto)]
// Reads sources at the limits, with the room that each is to have, and prints for each the answer and the records.
//
// A case is 72 bytes: the numbers and the text bytes that are lent, four bytes each and the lowest first, and four parts of the source. A part is
// 16 bytes: how often it comes (two bytes), its length, and its bytes.
ghost use Rattle.std.specs.Prelude.{◌≤◌, length};

mod make;

use std::io::{self, Write};

const CASE: usize = 72;

// The numbers of a case, before its parts.
const HEAD: usize = 8;

// So many bytes of cases at most.
const CASES: usize = 65536;

// One byte more than a source may have.
const SOURCE: usize = 65536;

// A thousand records: none of the sources that are accepted has more.
const NODES: usize = 7000;

const TEXT: usize = 65535;

// Makes the source and reads it, in as much of the room as the case says.
fn one<W: Write>(
    out: &mut W,
    case: &[u8],
    source: &mut [u8],
    nodes: &mut [u16],
    text: &mut [u8],
) -> io::Result<()>
    requires { HEAD ≤ length case.now }
{
    let (head, parts) = case.split_at(HEAD);
    let n = make::source(parts, source);
    let numbers = make::numbers(head).min(nodes.len());
    let bytes = make::bytes(head).min(text.len());
    print::reading(out, &source[..n], &mut nodes[..numbers], &mut text[..bytes])?;
    Ok(())
}

// What is cut off at the end is left out.
fn all<W: Write>(
    out: &mut W,
    cases: &[u8],
    source: &mut [u8],
    nodes: &mut [u16],
    text: &mut [u8],
) -> io::Result<()> {
    for case in cases.chunks_exact(CASE) {
        one(out, case, source, nodes, text)?;
    }
    Ok(())
}

fn main(rt: HostRuntime) -> io::Result<()> {
    let mut cases = [0u8; CASES];
    let mut source = [0u8; SOURCE];
    let mut nodes = [0u16; NODES];
    let mut text = [0u8; TEXT];
    let n = input::fill(&mut rt.reader(), &mut cases)?;
    all(
        &mut io::writer(&rt),
        &cases[..n],
        &mut source,
        &mut nodes,
        &mut text,
    )
}
