// Identifiers, and the words that have a meaning.
ghost use Rattle.std.specs.Prelude.{◌≡◌};
ghost use Rattle.lexis.specs.Bytes.{Ran};
ghost use Rattle.lexis.specs.Word.{ident_to, word_to, constant_at, kind_or_none, ends_for, for_to, in', if'};

use crate::bytes::{all_at, byte_at, is_rest, is_start, within};

// The kinds of the words that are constants.
#[derive(Clone, Copy, Drop)]
pub struct Constant;

impl Constant {
    pub const NULL: u16 = 1;

    pub const TRUE: u16 = 2;

    pub const FALSE: u16 = 3;
}

// The end of the identifier at p; p where none starts. Most words are made of small letters, so one test tells of most bytes.
pub fn ident_end(s: &[u8], p: usize) -> usize
    ensures { Ran s.now p (ident_to s.now p) result }
{
    let b = byte_at(s, p);
    if !is_start(b) {
        return p;
    }
    for i in p + 1..s.len() {
        let c = byte_at(s, i);
        if !within(c, 97, 122) && !is_rest(c) {
            return i;
        }
    }
    s.len()
}

// The end of the word w at p; p where the identifier there is another.
pub fn word_end(s: &[u8], p: usize, w: &[u8]) -> usize
    ensures { Ran s.now p (word_to w.now s.now p) result }
{
    if !all_at(s, p, w) {
        return p;
    }
    let e = p + w.len();
    let b = byte_at(s, e);
    if is_rest(b) { p } else { e }
}

// The end of the word `in` at p; p where it does not stand.
pub fn in_end(s: &[u8], p: usize) -> usize
    ensures { Ran s.now p (word_to in' s.now p) result }
{
    word_end(s, p, b"in")
}

// The end of the word `if` at p; p where it does not stand.
pub fn if_end(s: &[u8], p: usize) -> usize
    ensures { Ran s.now p (word_to if' s.now p) result }
{
    word_end(s, p, b"if")
}

// The kind of the constant that stands at p.
pub fn constant_at(s: &[u8], p: usize) -> Option<u16>
    ensures { result ≡ kind_or_none (constant_at s.now p) }
{
    if word_end(s, p, b"null") != p {
        return Some(Constant::NULL);
    }
    if word_end(s, p, b"true") != p {
        return Some(Constant::TRUE);
    }
    (word_end(s, p, b"false") != p).then_some(Constant::FALSE)
}

// Whether b, right behind a `for`, commits to a for-expression.
fn ends_for(b: u16) -> bool
    ensures { result ≡ ends_for b }
{
    b == 32 || (b == 9 || (b == 13 || (b == 10 || (b == 35 || b == 47))))
}

// The end of the `for` at p that commits to a for-expression; p where none stands.
pub fn for_end(s: &[u8], p: usize) -> usize
    ensures { Ran s.now p (for_to s.now p) result }
{
    if !all_at(s, p, b"for") {
        return p;
    }
    let b = byte_at(s, p + 3);
    if ends_for(b) { p + 3 } else { p }
}
