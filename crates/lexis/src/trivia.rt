// Trivia: space, line endings and comments.
ghost use Rattle.std.specs.Prelude.{◌≡◌, ℕ, true, false, ◌+◌, ◌≤◌, length, drop};
ghost use Rattle.lexis.specs.Bytes.{byte_at};
ghost use Rattle.lexis.specs.Trivia.{block, opens_comment, gap_of, stop_of, comment_of, Ending, Placed, Itemed, Gapped, Lined, Commented, Stopped};

use crate::bytes::{byte_at, is_space, one_at};

// A block comment that nothing closes, where it starts.
#[derive(Clone, Copy, Debug, PartialEq, Eq, Drop)]
pub struct Unclosed {
    pub at: usize,
}

// What ends an object's item: nothing here; the place behind what ends it; or a line comment that the source's end cuts, and that end.
#[derive(Clone, Copy, Debug, PartialEq, Eq, Drop)]
pub enum Stop {
    Nothing,
    End(usize),
    Cut(usize),
}

// The width of the line ending at p, where b stands; 0 where there is none.
fn ending_of(s: &[u8], p: usize, b: u16) -> usize
    requires { b ≡ byte_at s.now p }
    ensures { Ending s.now p result }
{
    if b == 10 {
        return 1;
    }
    if b != 13 {
        return 0;
    }
    if one_at(s, p + 1, b'\n') { 2 } else { 0 }
}

// The width of the line ending at p: 1 for LF, 2 for CRLF, 0 where there is none.
pub fn line_ending(s: &[u8], p: usize) -> usize
    ensures { Ending s.now p result }
{
    let b = byte_at(s, p);
    ending_of(s, p, b)
}

// The first LF from p on, or the source's end. A function of its own: within line_comment its loop costs more for each byte.
fn lf_at(s: &[u8], p: usize) -> usize
    ensures { Lined s.now p result }
{
    for i in p..s.len() {
        if s[i] == b'\n' {
            return i;
        }
    }
    p.max(s.len())
}

// The line comment whose text goes on at p: the place behind its line ending; or the source's end, which cuts it.
fn line_comment(s: &[u8], p: usize) -> Result<usize, usize>
    ensures { Commented s.now p (comment_of result) }
{
    let i = lf_at(s, p);
    if i < s.len() { Ok(i + 1) } else { Err(i) }
}

// The block comment whose `/*` is at p. Its slash is looked for, then the `*` before it: one look and one bound for most bytes.
fn block_comment(s: &[u8], p: usize) -> Result<usize, Unclosed>
    requires { p + 2 ≤ length s.now }
    ensures { Placed (block (drop (p + 2) s.now)) s.now p (gap_of result) }
{
    for i in p + 3..s.len() {
        if s[i] == b'/' && s[i - 1] == b'*' {
            return Ok(i + 1);
        }
    }
    Err(Unclosed { at: p })
}

// What starts with the slash at p: a block comment, a line comment where `lines` allows it, or no trivia.
fn slash(s: &[u8], p: usize, lines: bool) -> Result<usize, Unclosed>
    requires { byte_at s.now p ≡ 47 }
    ensures { Itemed lines s.now p (gap_of result) }
{
    let c = byte_at(s, p + 1);
    if c == 42 {
        return block_comment(s, p);
    }
    if c != 47 {
        return Ok(p);
    }
    if !lines {
        return Ok(p);
    }
    let (Ok(e) | Err(e)) = line_comment(s, p + 2);
    Ok(e)
}

// The place behind the one item of trivia at p; p itself where none stands.
fn item_at(s: &[u8], p: usize, lines: bool) -> Result<usize, Unclosed>
    ensures { Itemed lines s.now p (gap_of result) }
{
    let b = byte_at(s, p);
    // letters, digits and most marks are behind the slash: no trivia starts with one
    if 47 < b {
        return Ok(p);
    }
    if is_space(b) {
        return Ok(p + 1);
    }
    if b == 47 {
        return slash(s, p, lines);
    }
    if !lines {
        return Ok(p);
    }
    if b == 35 {
        let (Ok(e) | Err(e)) = line_comment(s, p + 1);
        return Ok(e);
    }
    let w = ending_of(s, p, b);
    Ok(p + w)
}

// Whether a comment can start with b: a `#` or a slash.
fn opens(b: u16) -> bool
    ensures { result ≡ opens_comment b }
{
    b == 47 || b == 35
}

// Where the trivia from p ends, or the place of an unclosed block comment in it; `lines` says whether line endings count. Space, and a byte that
// starts no trivia, are looked at here: what is left for item_at is rare, and its two calls keep its code out of this loop.
pub fn skip(s: &[u8], p: usize, lines: bool) -> Result<usize, Unclosed>
    ensures { Gapped lines s.now p (gap_of result) }
{
    let mut i = p;
    loop {
        let b = byte_at(s, i);
        if b == 32 {
            i += 1;
            continue;
        }
        if 32 < b {
            if !opens(b) {
                return Ok(i);
            }
            let c = item_at(s, i, lines)?;
            if c == i {
                return Ok(c);
            }
            i = c;
            continue;
        }
        let g = item_at(s, i, lines)?;
        if g == i {
            return Ok(g);
        }
        i = g;
    }
}

// Where the same-line space from p ends.
pub fn skip_line(s: &[u8], p: usize) -> Result<usize, Unclosed>
    ensures { Gapped false s.now p (gap_of result) }
{
    skip(s, p, false)
}

// Where any trivia from p ends.
pub fn skip_any(s: &[u8], p: usize) -> Result<usize, Unclosed>
    ensures { Gapped true s.now p (gap_of result) }
{
    skip(s, p, true)
}

// The line comment whose text goes on at p, as what ends an item.
fn comment_stop(s: &[u8], p: usize) -> Stop
    ensures { (q : ℕ) → Commented s.now p (stop_of q result) }
{
    match line_comment(s, p) {
        Ok(e) => Stop::End(e),
        Err(e) => Stop::Cut(e),
    }
}

// What ends an object's item at p: a comma, a line ending, or a line comment with its ending.
pub fn terminator(s: &[u8], p: usize) -> Stop
    ensures { Stopped s.now p (stop_of p result) }
{
    let b = byte_at(s, p);
    if b == 44 {
        return Stop::End(p + 1);
    }
    if b == 35 {
        return comment_stop(s, p + 1);
    }
    if b == 47 {
        if one_at(s, p + 1, b'/') {
            return comment_stop(s, p + 2);
        }
        return Stop::Nothing;
    }
    let w = ending_of(s, p, b);
    if w != 0 {
        return Stop::End(p + w);
    }
    Stop::Nothing
}
