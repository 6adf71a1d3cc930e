#![tactic(auto)]
// The reader: a source is read into room of its own, and where all is well that is copied into the lent room.
ghost use Rattle.std.specs.Prelude.{◌≡◌, ◌+◌, ◌*◌, ◌<◌, ◌≤◌, length};
ghost use Rattle.grammar.specs.Kinds.{number};
ghost use Rattle.grammar.specs.Answer.{answer};
ghost use Rattle.reader.specs.Read.{Clean, Fitting, Reads, answer_from};

use crate::copy::front;
use crate::whole::whole;
use grammar::kinds::{Limit, Refusal};
use lexis::utf8::first_bad;

mod at;
mod bare;
mod copy;
mod items;
pub mod node;
mod put;
mod text;
mod tree;
mod whole;

// So many bytes of a source are read in the least room, in the next and in the third.
const SMALL: usize = 1024;

const MIDDLE: usize = 4096;

const LARGE: usize = 16384;

// What was read: its end, and how many records and text bytes it has.
#[derive(Clone, Copy, Debug, PartialEq, Eq, Drop)]
pub struct Reading {
    pub end: usize,
    pub count: usize,
    pub text: usize,
}

// The answer of a source: kind 0, the source's length and the counts of its reading; or a refusal's kind and place, with the counts that room is wanted for, or zeros.
#[derive(Clone, Copy, Drop)]
pub struct Answer {
    pub kind: u8,
    pub place: usize,
    pub nodes: usize,
    pub text: usize,
}

// A source whose reading m has more records or text than was kept of it: it is read again, into the lent room.
fn again(source: &[u8], nodes: &mut [u16], text: &mut [u8], keys: &mut [u16], m: Reading) -> Answer
    requires { Clean 65535 source.now × (4 * length source.now ≤ 3 * length keys.old) × Fitting source.now nodes.old text.old m }
    ensures { Reads source.now nodes.old nodes.new text.old text.new result }
{
    let _ = whole(source, nodes, text, keys);
    accepted(m)
}

// A source of well-formed UTF-8, with room for its keys. It is read into room for records and text of its own, which is copied where all is well.
fn once(
    source: &[u8],
    nodes: &mut [u16],
    text: &mut [u8],
    keys: &mut [u16],
    rows: &mut [u16],
    runs: &mut [u8],
) -> Answer
    requires { Clean 65535 source.now × (4 * length source.now ≤ 3 * length keys.old) }
    ensures { Reads source.now nodes.old nodes.new text.old text.new result }
{
    let m = match whole(source, rows, runs, keys) {
        Ok(m) => m,
        Err(e) => return refused(e.kind, e.at, 0, 0),
    };
    if m.count > nodes.len() / Limit::RECORD {
        return refused(Refusal::Slots, 0, m.count, m.text);
    }
    if m.text > text.len() {
        return refused(Refusal::Text, 0, m.count, m.text);
    }
    if m.count > rows.len() / Limit::RECORD {
        return again(source, nodes, text, keys, m);
    }
    if m.text > runs.len() {
        return again(source, nodes, text, keys, m);
    }
    let n = Limit::RECORD * m.count;
    front(&rows[..n], nodes);
    front(&runs[..m.text], text);
    accepted(m)
}

// A source and the room that it is read into: of numbers for its keys, of numbers for its records, and of bytes for its text. The first content is never looked at: it is
// 1, as the compiler fills arrays of such numbers itself, with wide stores; those of bytes are zeros, which the C library clears.
fn read_in<const KEYS: usize, const ROWS: usize, const RUNS: usize>(
    source: &[u8],
    nodes: &mut [u16],
    text: &mut [u8],
) -> Answer
    requires { Clean 65535 source.now × (4 * length source.now ≤ 3 * KEYS) × (KEYS + ROWS + RUNS < 1000000) }
    ensures { Reads source.now nodes.old nodes.new text.old text.new result }
{
    let mut keys = [1u16; KEYS];
    let mut rows = [1u16; ROWS];
    let mut runs = [0u8; RUNS];
    once(source, nodes, text, &mut keys, &mut rows, &mut runs)
}

// Reads a source into lent room: records of seven numbers each, children first, and unescaped text.
pub fn read(source: &[u8], nodes: &mut [u16], text: &mut [u8]) -> Answer
    ensures { Reads source.now nodes.old nodes.new text.old text.new result }
{
    if source.len() > Limit::SOURCE {
        return refused(Refusal::Long, 0, 0, 0);
    }
    let bad = first_bad(source);
    if bad != source.len() {
        return refused(Refusal::Utf8, bad, 0, 0);
    }
    // a key takes four numbers, and a source has one in three bytes at most; there is room for a record in two bytes and for a byte of text in four
    if source.len() <= SMALL {
        return read_in::<1368, 3584, 256>(source, nodes, text);
    }
    if source.len() <= MIDDLE {
        return read_in::<5464, 14336, 1024>(source, nodes, text);
    }
    if source.len() <= LARGE {
        return read_in::<21848, 57344, 4096>(source, nodes, text);
    }
    read_in::<87380, 229376, 16384>(source, nodes, text)
}

fn accepted(m: Reading) -> Answer
    ensures { answer_from result ≡ answer 0 m.end m.count m.text }
{
    Answer {
        kind: 0,
        place: m.end,
        nodes: m.count,
        text: m.text,
    }
}

fn refused(kind: Refusal, place: usize, nodes: usize, text: usize) -> Answer
    ensures { answer_from result ≡ answer (number kind) place nodes text }
{
    Answer {
        kind: kind.into(),
        place,
        nodes,
        text,
    }
}
