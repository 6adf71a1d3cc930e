// The text of a node: a part of the source or of the text buffer, never a copy.
ghost use Rattle.std.specs.Prelude.{◌≡◌, []};
ghost use Rattle.reader.specs.Node.{is_text, text_in, has_text, text_of_node, node_has_text};

use grammar::kinds::{Kind, Limit};

// Whether a kind has text.
pub fn is_text(kind: u16) -> bool
    ensures { result ≡ is_text kind }
{
    kind == Kind::STRING || kind == Kind::PIECE
}

// The empty part of the source.
fn none(source: &[u8]) -> &[u8]
    ensures { result.now ≡ [] }
{
    &source[0..0]
}

// The text that a record's numbers name: flag 0 a part of the source, flag 1 of the text buffer; else the empty part of the source.
pub fn text_in<'a>(
    source: &'a [u8],
    text: &'a [u8],
    kind: u16,
    flag: u16,
    from: u16,
    length: u16,
) -> &'a [u8]
    ensures { result.now ≡ text_in source.now text.now kind flag from length }
{
    if !is_text(kind) {
        return none(source);
    }
    let a = usize::from(from);
    let e = a + usize::from(length);
    if flag == 0 {
        if e <= source.len() {
            return &source[a..e];
        }
        return none(source);
    }
    if flag == 1 {
        if e <= text.len() {
            return &text[a..e];
        }
        return none(source);
    }
    none(source)
}

// The same of the source alone: only flag 0 has text there.
pub fn source_text(source: &[u8], kind: u16, flag: u16, from: u16, length: u16) -> &[u8]
    ensures { result.now ≡ text_in source.now [] kind flag from length }
{
    if flag != 0 {
        return none(source);
    }
    text_in(source, source, kind, flag, from, length)
}

// The text of the i-th record.
pub fn node_text<'a>(source: &'a [u8], nodes: &[u16], text: &'a [u8], i: usize) -> &'a [u8]
    ensures { result.now ≡ text_of_node source.now nodes.now text.now i }
{
    if i < nodes.len() / Limit::RECORD {
        let at = i * Limit::RECORD;
        return text_in(
            source,
            text,
            nodes[at],
            nodes[at + 1],
            nodes[at + 5],
            nodes[at + 6],
        );
    }
    none(source)
}

// Whether a record's numbers name a text, which may be empty.
pub fn names_text(source: &[u8], text: &[u8], kind: u16, flag: u16, from: u16, length: u16) -> bool
    ensures { result ≡ has_text source.now text.now kind flag from length }
{
    if !is_text(kind) {
        return false;
    }
    let e = usize::from(from) + usize::from(length);
    if flag == 0 {
        return e <= source.len();
    }
    if flag == 1 {
        return e <= text.len();
    }
    false
}

// Whether the i-th record has a text: tells an empty text from none.
pub fn has_text(source: &[u8], nodes: &[u16], text: &[u8], i: usize) -> bool
    ensures { result ≡ node_has_text source.now nodes.now text.now i }
{
    if i < nodes.len() / Limit::RECORD {
        let at = i * Limit::RECORD;
        return names_text(
            source,
            text,
            nodes[at],
            nodes[at + 1],
            nodes[at + 5],
            nodes[at + 6],
        );
    }
    false
}
