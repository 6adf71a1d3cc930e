#![tactic(auto)]
// What a program in C or Rust links to read: each export calls the function of `capi` of its name, and promises the same.
ghost use Rattle.reader.specs.Read.{Reads};
ghost use Rattle.capi.specs.Where.{Stands};

// Reads a source into lent room, and gives back the answer's kind; its other numbers go where the pointers say.
#[unsafe(no_mangle)]
pub extern "C" fn vealtikum_read(
    source: &[u8],
    nodes: &mut [u16],
    text: &mut [u8],
    place: &mut usize,
    count: &mut usize,
    used: &mut usize,
) -> u8
    ensures { Reads source.now nodes.old nodes.new text.old text.new (record { kind = result; place = place.new; nodes = count.new; text = used.new }) }
{
    capi::vealtikum_read(source, nodes, text, place, count, used)
}

// Where the text of the i-th record stands: gives back 1 for the source, 2 for the text buffer, 0 where there is none, and puts the first byte's place and the length where the pointers say.
#[unsafe(no_mangle)]
pub extern "C" fn vealtikum_text(
    source: &[u8],
    nodes: &[u16],
    text: &[u8],
    i: usize,
    from: &mut usize,
    length: &mut usize,
) -> u8
    ensures { Stands source.now nodes.now text.now i result from.new length.new }
{
    capi::vealtikum_text(source, nodes, text, i, from, length)
}
