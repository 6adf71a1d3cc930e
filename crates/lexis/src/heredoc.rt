// Heredocs: the opener, and the line that closes the text.
ghost use Rattle.std.specs.Prelude.{◌≡◌};
ghost use Rattle.lexis.specs.Bytes.{Ran, is_space, run_to, stands};
ghost use Rattle.lexis.specs.Heredoc.{part, line_at, fresh_at, opener_of, opener_word, opener_at, Opened};

use crate::bytes::{all_at, byte_at, is_foreign, is_rest, is_space, one_at, two_at};
use crate::trivia::line_ending;
use crate::word::ident_end;

// What a line of a heredoc is: text; the closing line, with the end of its delimiter; or a scalar of 128 or more right after a delimiter, with its place.
#[derive(Clone, Copy, Debug, PartialEq, Eq, Drop)]
pub enum Line {
    Text,
    Closes(usize),
    Foreign(usize),
}

// An opener: its flag, its delimiter from `from` to `to`, and at `at` the start of the text.
#[derive(Clone, Copy, Debug, PartialEq, Eq, Drop)]
pub struct Opener {
    pub dash: bool,
    pub from: usize,
    pub to: usize,
    pub at: usize,
}

// The first place at or after p that has no space.
fn spaces_end(s: &[u8], p: usize) -> usize
    ensures { Ran s.now p (run_to is_space s.now p) result }
{
    for i in p..s.len() {
        if !is_space(byte_at(s, i)) {
            return i;
        }
    }
    p.max(s.len())
}

// Whether a line starts at p.
pub fn starts_line(s: &[u8], p: usize) -> bool
    ensures { result ≡ fresh_at s.now p }
{
    if p == 0 {
        false
    } else {
        byte_at(s, p - 1) == 10
    }
}

// So many bytes of a delimiter are looked at one by one.
const NEAR: usize = 8;

// Whether the delimiter w stands at p: its first bytes one by one, what is left by the library, which compares blocks. Few lines ask for it, so it stays a function of its own.
#[inline(never)]
fn delimits(s: &[u8], p: usize, w: &[u8]) -> bool
    ensures { result ≡ stands w.now s.now p }
{
    if w.len() <= NEAR {
        return all_at(s, p, w);
    }
    if !all_at(s, p, &w[..NEAR]) {
        return false;
    }
    s[p + NEAR..].starts_with(&w[NEAR..])
}

// What the line at p is, for the delimiter that stands in the source from d to e.
pub fn line_at(s: &[u8], d: usize, e: usize, p: usize) -> Line
    ensures { result ≡ line_at (part s.now d e) s.now p }
{
    let to = e.min(s.len());
    let delimiter = &s[d.min(to)..to];
    let from = spaces_end(s, p);
    // most lines are told by their first byte
    if d < to && byte_at(s, from) != byte_at(s, d) {
        return Line::Text;
    }
    if !delimits(s, from, delimiter) {
        return Line::Text;
    }
    let j = from + delimiter.len();
    let b = byte_at(s, j);
    if is_rest(b) {
        Line::Text
    } else if is_foreign(b) {
        Line::Foreign(j)
    } else {
        Line::Closes(j)
    }
}

// The delimiter at d and the line ending behind it.
fn delimiter_at(s: &[u8], d: usize, dash: bool) -> Result<Opener, usize>
    ensures { Opened (opener_word s.now dash d) s.now d (opener_of result) }
{
    let e = ident_end(s, d);
    if e == d {
        return Err(d);
    }
    let w = line_ending(s, e);
    if w == 0 {
        return Err(e);
    }
    Ok(Opener {
        dash,
        from: d,
        to: e,
        at: e + w,
    })
}

// The opener at p; or the place at which something else stands.
pub fn opener_at(s: &[u8], p: usize) -> Result<Opener, usize>
    ensures { Opened (opener_at s.now p) s.now p (opener_of result) }
{
    if !two_at(s, p, b'<', b'<') {
        return Err(p);
    }
    if one_at(s, p + 2, b'-') {
        return delimiter_at(s, p + 3, true);
    }
    delimiter_at(s, p + 2, false)
}
