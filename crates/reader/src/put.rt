// Records in the lent buffer, and what was read.
ghost use Rattle.std.specs.Prelude.{◌≡◌, ◌≤◌};
ghost use Rattle.grammar.specs.Table.{record_of};
ghost use Rattle.reader.specs.Buffer.{put_at};
ghost use Rattle.reader.specs.Said.{Closing, Closed};

use crate::Reading;
use crate::at::{At, Node};
use grammar::kinds::Limit;

// The numbers of a record, in the order of the buffer.
#[derive(Clone, Copy, Drop)]
struct Record {
    kind: u16,
    flag: u16,
    from: u16,
    to: u16,
    count: u16,
    text: u16,
    length: u16,
}

// The i-th record, where the buffer has one.
fn put(nodes: &mut [u16], i: usize, row: Record)
    ensures { nodes.new ≡ put_at nodes.old i (record_of row.kind row.flag row.from row.to row.count (row.text, row.length)) }
{
    if i < nodes.len() / Limit::RECORD {
        let at = i * Limit::RECORD;
        nodes[at] = row.kind;
        nodes[at + 1] = row.flag;
        nodes[at + 2] = row.from;
        nodes[at + 3] = row.to;
        nodes[at + 4] = row.count;
        nodes[at + 5] = row.text;
        nodes[at + 6] = row.length;
    }
}

pub fn accept(end: usize, count: usize, text: usize) -> Reading
    ensures { result ≡ record { end = end; count = count; text = text } }
{
    Reading { end, count, text }
}

// The record of a node without children, from a place to `to`, whose text is `length` bytes from `text` on.
pub fn leaf(nodes: &mut [u16], at: At, kind: u16, flag: u16, to: usize, text: usize, length: usize)
    requires { (at.place ≤ 65535) × (to ≤ 65535) × (text ≤ 65535) × (length ≤ 65535) }
    ensures { nodes.new ≡ put_at nodes.old at.records (record_of kind flag at.place to 1 (text, length)) }
{
    let row = Record {
        kind,
        flag,
        from: at.place as u16,
        to: to as u16,
        count: 1,
        text: text as u16,
        length: length as u16,
    };
    put(nodes, at.records, row);
}

// A node's record after the n records of its children, the first of which is the i-th.
pub fn close(
    nodes: &mut [u16],
    i: usize,
    n: usize,
    node: Node,
    flag: usize,
    to: usize,
    text: usize,
) -> Reading
    requires { Closing i n flag node.start to node.before }
    ensures { Closed i n node.kind flag node.start to node.before text nodes.old nodes.new result }
{
    let row = Record {
        kind: node.kind,
        flag: flag as u16,
        from: node.start as u16,
        to: to as u16,
        count: (node.before + n + 1) as u16,
        text: 0,
        length: 0,
    };
    put(nodes, i + n, row);
    accept(to, n + 1, text)
}

// The same of a node that starts at a place, without a left operand.
pub fn close_at(
    nodes: &mut [u16],
    at: At,
    n: usize,
    kind: u16,
    flag: usize,
    to: usize,
    text: usize,
) -> Reading
    requires { Closing at.records n flag at.place to 0 }
    ensures { Closed at.records n kind flag at.place to 0 text nodes.old nodes.new result }
{
    let node = Node {
        kind,
        start: at.place,
        before: 0,
    };
    close(nodes, at.records, n, node, flag, to, text)
}
