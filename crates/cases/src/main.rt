#![tactic(auto)]
// Asks the functions of `lexis` about the sources of standard input, and prints what they answer: a line for each record.
//
// A record is eight numbers of one byte each, and then a source: the question, the first place and the last, four numbers that some questions
// take, and the length of the source. The question is asked at each place from the first to the last.
mod ask;
mod say;

use input::byte;
use std::io::{self, Write};

const HEAD: usize = 8;

// Where a record has the length of its source.
const LENGTH: usize = 7;

// So many bytes of records at most.
const RECORDS: usize = 65536;

// The place that stands for the largest there is.
const FAR: u8 = 255;

fn place(k: u8) -> usize {
    if k == FAR { usize::MAX } else { usize::from(k) }
}

// Asks one question of a source, at each place.
fn record<W: Write>(out: &mut W, head: &[u8], s: &[u8]) -> io::Result<()> {
    let q = byte(head, 0);
    let last = byte(head, 2);
    say::first(out, q)?;
    for k in byte(head, 1)..=last {
        ask::question(out, q, head, s, place(k))?;
        say::next(out, k < last)?;
    }
    writeln!(out)
}

// Goes through the records. What is cut off at the end is left out.
fn records<W: Write>(out: &mut W, b: &[u8]) -> io::Result<()> {
    let mut rest = b;
    while let Some((head, after)) = rest.split_at_checked(HEAD) {
        let length = usize::from(byte(head, LENGTH));
        let Some((source, behind)) = after.split_at_checked(length) else {
            break;
        };
        record(out, head, source)?;
        rest = behind;
    }
    Ok(())
}

fn main(rt: HostRuntime) -> io::Result<()> {
    let mut buf = [0u8; RECORDS];
    let n = input::fill(&mut rt.reader(), &mut buf)?;
    records(&mut io::writer(&rt), &buf[..n])
}
