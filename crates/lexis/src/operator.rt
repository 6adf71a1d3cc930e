// The binary operators, and the other marks.
ghost use Rattle.std.specs.Prelude.{◌≡◌, [], ◌∷◌, cond, ◌+◌, ◌<◌, length, Some, IfSome};
ghost use Rattle.lexis.specs.Bytes.{stands, Ran};
ghost use Rattle.lexis.specs.Operator.{op, op_of, OpHere, mark_to, question_to, colon_to, colons_to, dot_to, dots_to, equals_to, arrow_to, bang_to};

use crate::bytes::{all_at, byte_at, one_at, two_at};

// An operator: its kind, its level (the tightest is 6) and its width.
#[derive(Clone, Copy, Debug, PartialEq, Eq, Drop)]
pub struct Op {
    pub kind: u16,
    pub level: u16,
    pub width: usize,
}

impl Op {
    pub const TIMES: u16 = 24;

    pub const DIVIDE: u16 = 25;

    pub const MODULO: u16 = 26;

    pub const PLUS: u16 = 27;

    pub const MINUS: u16 = 28;

    pub const GREATER: u16 = 29;

    pub const AT_LEAST: u16 = 30;

    pub const LESS: u16 = 31;

    pub const AT_MOST: u16 = 32;

    pub const EQUAL: u16 = 33;

    pub const UNEQUAL: u16 = 34;

    pub const AND: u16 = 35;

    pub const OR: u16 = 36;
}

fn some(kind: u16, level: u16, width: usize) -> Option<Op>
    ensures { result ≡ Some (op kind level width) }
{
    Some(Op { kind, level, width })
}

// One of two answers, by whether b stands behind the byte at p.
fn followed(s: &[u8], p: usize, b: u8, two: Option<Op>, one: Option<Op>) -> Option<Op>
    requires { p < length s.now }
    ensures { result ≡ cond (stands (b ∷ []) s.now (p + 1)) two one }
{
    if one_at(s, p + 1, b) { two } else { one }
}

// The operator at p.
pub fn op_at(s: &[u8], p: usize) -> Option<Op>
    ensures here { OpHere s.now p (op_of result) }
    ensures named { IfSome result (λ o. 0 < o.kind) }
{
    let a = byte_at(s, p);
    match a {
        42 => some(Op::TIMES, 6, 1),
        47 => {
            let slash = followed(s, p, b'*', None, some(Op::DIVIDE, 6, 1));
            followed(s, p, b'/', None, slash)
        }
        37 => some(Op::MODULO, 6, 1),
        43 => some(Op::PLUS, 5, 1),
        45 => some(Op::MINUS, 5, 1),
        62 => followed(
            s,
            p,
            b'=',
            some(Op::AT_LEAST, 4, 2),
            some(Op::GREATER, 4, 1),
        ),
        60 => followed(s, p, b'=', some(Op::AT_MOST, 4, 2), some(Op::LESS, 4, 1)),
        61 => followed(s, p, b'=', some(Op::EQUAL, 3, 2), None),
        33 => followed(s, p, b'=', some(Op::UNEQUAL, 3, 2), None),
        38 => followed(s, p, b'&', some(Op::AND, 2, 2), None),
        124 => followed(s, p, b'|', some(Op::OR, 1, 2), None),
        _ => None,
    }
}

// The end of the byte b at p; p where it does not stand.
pub fn mark_end(s: &[u8], p: usize, b: u8) -> usize
    ensures { Ran s.now p (mark_to (b ∷ []) [] s.now p) result }
{
    if one_at(s, p, b) { p + 1 } else { p }
}

// The end of the bytes a and b at p; p where they do not stand.
pub fn pair_end(s: &[u8], p: usize, a: u8, b: u8) -> usize
    ensures { Ran s.now p (mark_to (a ∷ b ∷ []) [] s.now p) result }
{
    if two_at(s, p, a, b) { p + 2 } else { p }
}

// The end of the byte a at p that has no b behind it; p where that does not stand.
fn lone_end(s: &[u8], p: usize, a: u8, b: u8) -> usize
    ensures { Ran s.now p (mark_to (a ∷ []) ((a ∷ b ∷ []) ∷ []) s.now p) result }
{
    if !one_at(s, p, a) {
        return p;
    }
    if one_at(s, p + 1, b) { p } else { p + 1 }
}

// The end of `?` at p; p where it does not stand. So for the marks below.
pub fn question_end(s: &[u8], p: usize) -> usize
    ensures { Ran s.now p (question_to s.now p) result }
{
    mark_end(s, p, b'?')
}

// `:`
pub fn colon_end(s: &[u8], p: usize) -> usize
    ensures { Ran s.now p (colon_to s.now p) result }
{
    mark_end(s, p, b':')
}

// `::`
pub fn colons_end(s: &[u8], p: usize) -> usize
    ensures { Ran s.now p (colons_to s.now p) result }
{
    pair_end(s, p, b':', b':')
}

// `.`, but not `..`
pub fn dot_end(s: &[u8], p: usize) -> usize
    ensures { Ran s.now p (dot_to s.now p) result }
{
    lone_end(s, p, b'.', b'.')
}

// `...`
pub fn dots_end(s: &[u8], p: usize) -> usize
    ensures { Ran s.now p (dots_to s.now p) result }
{
    if all_at(s, p, b"...") { p + 3 } else { p }
}

// `=`, but neither `=>` nor `==`
pub fn equals_end(s: &[u8], p: usize) -> usize
    ensures { Ran s.now p (equals_to s.now p) result }
{
    if !one_at(s, p, b'=') {
        return p;
    }
    let b = byte_at(s, p + 1);
    if b == 62 {
        return p;
    }
    if b == 61 { p } else { p + 1 }
}

// `=>`
pub fn arrow_end(s: &[u8], p: usize) -> usize
    ensures { Ran s.now p (arrow_to s.now p) result }
{
    pair_end(s, p, b'=', b'>')
}

// `!`, but not `!=`
pub fn bang_end(s: &[u8], p: usize) -> usize
    ensures { Ran s.now p (bang_to s.now p) result }
{
    lone_end(s, p, b'!', b'=')
}
