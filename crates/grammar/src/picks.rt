// What a place calls for, and what may follow an operand: kinds, 0 for none.
ghost use Rattle.std.specs.Prelude.{◌≡◌, ◌<◌, true, false, cond, IfSome};
ghost use Rattle.lexis.specs.Bytes.{is_digit};
ghost use Rattle.lexis.specs.Trivia.{gap_to};
ghost use Rattle.lexis.specs.Keys.{key_to};
ghost use Rattle.grammar.specs.Moves.{lone};
ghost use Rattle.grammar.specs.Hcl.{is_broken};
ghost use Rattle.grammar.specs.Alone.{head_of, HeadAt, Lasting, NextAt, sign_from, SignOf, KeyAt};
ghost use Rattle.grammar.specs.Said.{kind_from, TermAt, PartAt, Follow, byte_beyond, calls_at, word_kind, for_beyond, broken_at, colon_at, sign_at};

use crate::kinds::Kind;
use crate::moves::is_part;
use lexis::bytes::{NOTHING, byte_at, is_digit, is_start, two_at};
use lexis::number::number_end;
use lexis::operator::{equals_end, op_at};
use lexis::string::{Round, Why, run_at};
use lexis::trivia::{skip, skip_line};
use lexis::word::{constant_at, for_end, ident_end};

// A kind, and the end of its token where that is looked at; else the place itself.
#[derive(Clone, Copy, Drop)]
pub struct Head {
    pub kind: u16,
    pub end: usize,
}

// A key that is a word with a sign behind it: its kind as a term, its end, the place of the sign, and 1 for `:`.
#[derive(Clone, Copy, Drop)]
pub struct Key {
    pub kind: u16,
    pub end: usize,
    pub at: usize,
    pub flag: usize,
}

// The byte behind the trivia from p; NOTHING where a comment in it is unclosed.
fn beyond(s: &[u8], p: usize, lines: bool) -> u16
    ensures { result ≡ byte_beyond s.now (gap_to lines s.now p) }
{
    match skip(s, p, lines) {
        Ok(at) => byte_at(s, at),
        Err(_) => NOTHING,
    }
}

// Whether an identifier that ends at e is a call's.
fn calls(s: &[u8], e: usize, lines: bool) -> bool
    ensures { result ≡ calls_at s.now lines e }
{
    let Ok(at) = skip(s, e, lines) else {
        return false;
    };
    if byte_at(s, at) == 40 {
        return true;
    }
    two_at(s, at, b':', b':')
}

// What the identifier at p begins.
fn word_at(s: &[u8], p: usize, lines: bool) -> u16
    ensures kind { result ≡ word_kind s.now lines p }
    ensures some { 0 < result }
{
    let e = ident_end(s, p);
    if calls(s, e, lines) {
        return Kind::CALL;
    }
    constant_at(s, p).unwrap_or(Kind::VARIABLE)
}

// What the minus before q begins.
fn minus_before(s: &[u8], q: usize) -> u16
    ensures { result ≡ cond (is_digit (byte_beyond s.now (gap_to false s.now q))) 4 22 }
{
    let b = beyond(s, q, false);
    if is_digit(b) {
        Kind::NUMBER
    } else {
        Kind::NEGATION
    }
}

// One kind or the other, by whether a for-expression goes on at q.
fn for_at(s: &[u8], q: usize, yes: u16, no: u16) -> u16
    ensures { result ≡ cond (for_beyond s.now q) yes no }
{
    let Ok(at) = skip(s, q, true) else {
        return no;
    };
    if for_end(s, at) == at { no } else { yes }
}

// What the quote before q begins.
fn quote_before(s: &[u8], q: usize) -> u16
    ensures { result ≡ cond (broken_at s.now q) 7 6 }
{
    match run_at(s, q, Round::Quoted).why {
        Why::Interpolation => Kind::TEMPLATE,
        _ => Kind::STRING,
    }
}

// The term that may start at p.
pub fn term_at(s: &[u8], p: usize, lines: bool) -> Option<u16>
    ensures kind { TermAt s.now p lines (kind_from result) }
    ensures some { IfSome result (λ k. 0 < k) }
{
    let b = byte_at(s, p);
    if is_digit(b) {
        return Some(Kind::NUMBER);
    }
    if is_start(b) {
        return Some(word_at(s, p, lines));
    }
    match b {
        45 => Some(minus_before(s, p + 1)),
        33 => if byte_at(s, p + 1) == 61 {
            None
        } else {
            Some(Kind::NOT)
        },
        40 => Some(Kind::PARENTHESES),
        91 => Some(for_at(s, p + 1, Kind::LIST_FOR, Kind::ARRAY)),
        123 => Some(for_at(s, p + 1, Kind::OBJECT_FOR, Kind::OBJECT)),
        34 => Some(quote_before(s, p + 1)),
        60 => if byte_at(s, p + 1) == 60 {
            Some(Kind::HEREDOC)
        } else {
            None
        },
        _ => None,
    }
}

fn headed(kind: u16, end: usize) -> Head
    ensures { result ≡ head_of kind end }
{
    Head { kind, end }
}

// The term that may start at p; its end too where it is a word or a number without a sign, so that nobody looks at these twice.
pub fn head_at(s: &[u8], p: usize, lines: bool) -> Head
    ensures { HeadAt s.now p lines result }
{
    let b = byte_at(s, p);
    if is_digit(b) {
        let e = number_end(s, p);
        return headed(Kind::NUMBER, e);
    }
    if !is_start(b) {
        let k = term_at(s, p, lines).unwrap_or(Kind::NONE);
        return headed(k, p);
    }
    let e = ident_end(s, p);
    if calls(s, e, lines) {
        return headed(Kind::CALL, p);
    }
    headed(constant_at(s, p).unwrap_or(Kind::VARIABLE), e)
}

// The part of a traversal that may start at p.
pub fn part_at(s: &[u8], p: usize) -> Option<u16>
    ensures kind { PartAt s.now p (kind_from result) }
    ensures some { IfSome result (λ k. 0 < k) }
{
    let b = byte_at(s, p);
    if b == 91 {
        let c = beyond(s, p + 1, true);
        return if c == 42 {
            Some(Kind::FULL_SPLAT)
        } else {
            Some(Kind::INDEX)
        };
    }
    if b != 46 {
        return None;
    }
    let c = beyond(s, p + 1, true);
    if c == 42 {
        return Some(Kind::ATTRIBUTE_SPLAT);
    }
    if is_digit(c) {
        Some(Kind::LEGACY_INDEX)
    } else {
        Some(Kind::ATTRIBUTE)
    }
}

// What may follow an operand that ends at p: an operator, a conditional or a traversal.
pub fn follow(s: &[u8], p: usize, lines: bool) -> Option<u16>
    ensures kind { Follow s.now p lines (kind_from result) }
    ensures some { IfSome result (λ k. 0 < k) }
{
    let Ok(at) = skip(s, p, lines) else {
        return None;
    };
    if let Some(o) = op_at(s, at) {
        return Some(o.kind);
    }
    if byte_at(s, at) == 63 {
        return Some(Kind::CONDITIONAL);
    }
    if is_part(s, at) {
        Some(Kind::TRAVERSAL)
    } else {
        None
    }
}

// Whether the byte at p tells by itself that nothing follows: a closer, a comma, or a line's end where that is no trivia. Most operands end so.
fn is_last(s: &[u8], p: usize, lines: bool) -> bool
    ensures { Lasting s.now p lines result }
{
    let b = byte_at(s, p);
    if b == 32 {
        return false;
    }
    if b == 10 {
        return !lines;
    }
    match b {
        41 => true,
        44 => true,
        93 => true,
        125 => true,
        _ => false,
    }
}

// The same, with the end of a binary operator.
pub fn next_at(s: &[u8], p: usize, lines: bool) -> Head
    ensures { NextAt s.now p lines result }
{
    if is_last(s, p, lines) {
        return headed(Kind::NONE, p);
    }
    let Ok(at) = skip(s, p, lines) else {
        return headed(Kind::NONE, p);
    };
    if let Some(o) = op_at(s, at) {
        return headed(o.kind, at + o.width);
    }
    if byte_at(s, at) == 63 {
        return headed(Kind::CONDITIONAL, p);
    }
    if is_part(s, at) {
        return headed(Kind::TRAVERSAL, p);
    }
    headed(Kind::NONE, p)
}

// The end of the token that a key begins with: a word or a plain string.
pub fn key_end(s: &[u8], a: usize) -> usize
    ensures { result ≡ key_to s.now a }
{
    if byte_at(s, a) != 34 {
        return ident_end(s, a);
    }
    let t = run_at(s, a + 1, Round::Quoted);
    let e = t.end;
    e + 1
}

// Where the same-line space from p ends; where a comment in it is unclosed, where that starts.
pub fn space_end(s: &[u8], p: usize) -> usize
    ensures { result ≡ (gap_to false s.now p).at }
{
    match skip_line(s, p) {
        Ok(q) => q,
        Err(e) => e.at,
    }
}

// Whether the key of the item at a is that token alone.
pub fn lone(s: &[u8], a: usize) -> bool
    ensures { result ≡ lone s.now a }
{
    let k = key_end(s, a);
    signs(s, space_end(s, k))
}

// Whether a sign stands at q: `=`, but neither `=>` nor `==`; or `:`, but not `::`.
pub fn signs(s: &[u8], q: usize) -> bool
    ensures { result ≡ sign_at s.now q }
{
    if equals_end(s, q) != q {
        return true;
    }
    if byte_at(s, q) != 58 {
        return false;
    }
    byte_at(s, q + 1) != 58
}

// The flag of the sign at q that ends a lone key: 0 for `=`, 1 for `:`; None where there is none.
fn sign_of(s: &[u8], q: usize) -> Option<usize>
    ensures { SignOf s.now q (sign_from result) }
{
    if equals_end(s, q) != q {
        return Some(0);
    }
    if byte_at(s, q) != 58 {
        return None;
    }
    if byte_at(s, q + 1) == 58 {
        None
    } else {
        Some(1)
    }
}

// The key at p where it is a word alone with its sign behind it: most keys are, and are looked at once by this.
pub fn key_at(s: &[u8], p: usize) -> Option<Key>
    ensures { KeyAt s.now p result }
{
    let b = byte_at(s, p);
    if !is_start(b) {
        return None;
    }
    let e = ident_end(s, p);
    let Ok(q) = skip_line(s, e) else {
        return None;
    };
    let flag = sign_of(s, q)?;
    Some(Key {
        kind: constant_at(s, p).unwrap_or(Kind::VARIABLE),
        end: e,
        at: q,
        flag,
    })
}
