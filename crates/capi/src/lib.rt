#![tactic(auto)]
// The functions that a program in C or Rust calls: reading, and the text of a node. A slice is a pointer and a length there.
ghost use Rattle.std.specs.Prelude.{◌≡◌, ◌+◌, ◌*◌, ◌/◌, ◌<◌, length};
ghost use Rattle.reader.specs.Node.{number_at};
ghost use Rattle.reader.specs.Read.{Reads};
ghost use Rattle.capi.specs.Where.{Stands};

use grammar::kinds::Limit;
use reader::node::has_text;
use reader::read;

// Reads a source into lent room, and gives back the answer's kind; its other numbers go where the pointers say.
pub fn vealtikum_read(
    source: &[u8],
    nodes: &mut [u16],
    text: &mut [u8],
    place: &mut usize,
    count: &mut usize,
    used: &mut usize,
) -> u8
    ensures { Reads source.now nodes.old nodes.new text.old text.new (record { kind = result; place = place.new; nodes = count.new; text = used.new }) }
{
    let a = read(source, nodes, text);
    *place = a.place;
    *count = a.nodes;
    *used = a.text;
    a.kind
}

// Where the text of the i-th record stands: gives back 1 for the source, 2 for the text buffer, 0 where there is none, and puts the first byte's place and the length where the pointers say.
pub fn vealtikum_text(
    source: &[u8],
    nodes: &[u16],
    text: &[u8],
    i: usize,
    from: &mut usize,
    length: &mut usize,
) -> u8
    ensures { Stands source.now nodes.now text.now i result from.new length.new }
{
    if !has_text(source, nodes, text, i) {
        *from = 0;
        *length = 0;
        return 0;
    }
    *from = number(nodes, i, 5);
    *length = number(nodes, i, 6);
    if number(nodes, i, 1) == 0 { 1 } else { 2 }
}

// The j-th number of the i-th record.
fn number(nodes: &[u16], i: usize, j: usize) -> usize
    requires { (i < length nodes.now / 7) × (j < 7) }
    ensures { result ≡ number_at nodes.now (i * 7 + j) }
{
    usize::from(nodes[i * Limit::RECORD + j])
}
