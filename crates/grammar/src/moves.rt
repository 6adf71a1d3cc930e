// Moves over the bytes of a source: atoms, one after the other, and the refusal of the first that can't be made.
ghost use Rattle.std.specs.Prelude.{◌≡◌};
ghost use Rattle.lexis.specs.Bytes.{Ran};
ghost use Rattle.lexis.specs.Word.{word_to};
ghost use Rattle.grammar.specs.Moves.{unexpected, token, is_part, index, operator, parts, unless, comma, call};
ghost use Rattle.grammar.specs.Code.{word_of, atom_of};
ghost use Rattle.grammar.specs.Said.{refused, went_from, went_of, Moved, Made, Walked, Plain, Placed, opened, stayed, lines_of, Numbered};

use crate::kinds::{Kind, Refusal, Refused};
use lexis::bytes::{byte_at, is_foreign, two_at};
use lexis::number::{index_at, number_end};
use lexis::operator::{arrow_end, colons_end, dots_end, mark_end, op_at, pair_end};
use lexis::trivia::skip;
use lexis::word::{for_end, ident_end, if_end, in_end, word_end};

// No rule takes what stands at p.
pub fn unexpected(s: &[u8], p: usize) -> Refused
    ensures { refused result ≡ went_of (unexpected s.now p) }
{
    if is_foreign(byte_at(s, p)) {
        Refusal::Foreign.at(p)
    } else {
        Refusal::Unexpected.at(p)
    }
}

// Past the trivia from p; `lines` says whether line endings count.
pub fn space(s: &[u8], p: usize, lines: bool) -> Result<usize, Refused>
    ensures { Moved s.now p lines (went_from result) }
{
    Ok(skip(s, p, lines)?)
}

// To the end e of a token, which is p where it does not stand.
fn token(s: &[u8], p: usize, e: usize) -> Result<usize, Refused>
    ensures { went_from result ≡ went_of (token s.now p e) }
{
    if e == p { Err(unexpected(s, p)) } else { Ok(e) }
}

// The same, where the token opens a level.
fn enter(s: &[u8], left: usize, p: usize, e: usize) -> Result<usize, Refused>
    ensures { went_from result ≡ went_of (opened s.now left p e) }
{
    if e == p {
        return Err(unexpected(s, p));
    }
    if left == 0 {
        Err(Refusal::Deep.at(p))
    } else {
        Ok(e)
    }
}

// The same, but it stays before the token.
fn stay(s: &[u8], p: usize, e: usize) -> Result<usize, Refused>
    ensures { went_from result ≡ went_of (stayed s.now p e) }
{
    if e == p { Err(unexpected(s, p)) } else { Ok(p) }
}

// The mode of the trivia that the argument x names.
fn mode(x: u8, lines: bool) -> bool
    ensures { result ≡ lines_of x lines }
{
    if x == 0 {
        return true;
    }
    if x == 1 { false } else { lines }
}

// The end of the x-th word at p; p where it does not stand.
fn keyword_end(s: &[u8], p: usize, x: u8) -> usize
    ensures { Ran s.now p (word_to (word_of x) s.now p) result }
{
    match x {
        1 => word_end(s, p, b"null"),
        2 => word_end(s, p, b"true"),
        3 => word_end(s, p, b"false"),
        4 => in_end(s, p),
        _ => if_end(s, p),
    }
}

// A legacy index.
fn legacy(s: &[u8], p: usize) -> Result<usize, Refused>
    ensures { Plain s.now index p (went_from result) }
{
    match index_at(s, p) {
        Ok(e) => token(s, p, e),
        Err(_) => Err(Refusal::Index.at(p)),
    }
}

// The binary operator of a kind.
fn operator(s: &[u8], p: usize, kind: u16) -> Result<usize, Refused>
    ensures { Plain s.now (operator kind) p (went_from result) }
{
    let Some(o) = op_at(s, p) else {
        return if kind == Kind::NONE {
            Ok(p)
        } else {
            Err(unexpected(s, p))
        };
    };
    if o.kind == kind {
        Ok(p + o.width)
    } else {
        Err(unexpected(s, p))
    }
}

// Whether a part of a traversal begins at p: `[`, or `.` but not `..`.
pub fn is_part(s: &[u8], p: usize) -> bool
    ensures { result ≡ is_part s.now p }
{
    let b = byte_at(s, p);
    if b == 91 {
        return true;
    }
    if b != 46 {
        return false;
    }
    byte_at(s, p + 1) != 46
}

fn part(s: &[u8], p: usize) -> Result<usize, Refused>
    ensures { Plain s.now parts p (went_from result) }
{
    if is_part(s, p) {
        Ok(p)
    } else {
        Err(unexpected(s, p))
    }
}

// Anything but the byte x.
fn unless(s: &[u8], p: usize, x: u8) -> Result<usize, Refused>
    ensures { Plain s.now (unless x) p (went_from result) }
{
    if byte_at(s, p) == u16::from(x) {
        Err(unexpected(s, p))
    } else {
        Ok(p)
    }
}

// A comma and any trivia, or nothing.
fn comma(s: &[u8], p: usize) -> Result<usize, Refused>
    ensures { Plain s.now comma p (went_from result) }
{
    if byte_at(s, p) == 44 {
        space(s, p + 1, true)
    } else {
        Ok(p)
    }
}

// The `(` of a call; a `::` that no name can follow is refused past its trivia.
fn call(s: &[u8], left: usize, lines: bool, p: usize) -> Result<usize, Refused>
    ensures { Placed s.now left lines call p (went_from result) }
{
    if !two_at(s, p, b':', b':') {
        return enter(s, left, p, mark_end(s, p, b'('));
    }
    let at = space(s, p + 2, lines)?;
    Err(Refusal::Unexpected.at(at))
}

// One atom at p, by its code and its argument.
pub fn atom(s: &[u8], left: usize, lines: bool, code: u8, x: u8, p: usize) -> Result<usize, Refused>
    ensures { Made s.now left lines (atom_of code x) p (went_from result) }
{
    match code {
        1 => space(s, p, mode(x, lines)),
        2 => token(s, p, mark_end(s, p, x)),
        3 => enter(s, left, p, mark_end(s, p, x)),
        4 => token(s, p, colons_end(s, p)),
        5 => token(s, p, dots_end(s, p)),
        6 => token(s, p, arrow_end(s, p)),
        7 => token(s, p, keyword_end(s, p, x)),
        8 => stay(s, p, if_end(s, p)),
        9 => token(s, p, for_end(s, p)),
        10 => token(s, p, ident_end(s, p)),
        11 => token(s, p, number_end(s, p)),
        12 => legacy(s, p),
        13 => operator(s, p, u16::from(x)),
        14 => part(s, p),
        15 => unless(s, p, x),
        16 => comma(s, p),
        17 => call(s, left, lines, p),
        _ => enter(s, left, p, pair_end(s, p, b'$', b'{')),
    }
}

// The number of the atom at a: the atoms of the moves, one move after the other, code and argument, a byte each, the code lowest; 0 behind each move and past the last. Long, as a line for each is a table that stays.
fn number(a: usize) -> u16
    ensures { Numbered a result }
{
    match a {
        0 => 263,
        1 => 0,
        2 => 519,
        3 => 0,
        4 => 775,
        5 => 0,
        6 => 11522,
        7 => 257,
        8 => 0,
        9 => 11,
        10 => 0,
        11 => 10,
        12 => 0,
        13 => 23299,
        14 => 0,
        15 => 1,
        16 => 23810,
        17 => 0,
        18 => 1,
        19 => 0,
        20 => 1,
        21 => 11266,
        22 => 1,
        23 => 23823,
        24 => 0,
        25 => 1,
        26 => 16,
        27 => 23810,
        28 => 0,
        29 => 10243,
        30 => 0,
        31 => 1,
        32 => 10498,
        33 => 0,
        34 => 513,
        35 => 4,
        36 => 513,
        37 => 0,
        38 => 513,
        39 => 17,
        40 => 0,
        41 => 1,
        42 => 11266,
        43 => 1,
        44 => 10511,
        45 => 0,
        46 => 1,
        47 => 5,
        48 => 0,
        49 => 1,
        50 => 16,
        51 => 10498,
        52 => 0,
        53 => 1,
        54 => 9,
        55 => 0,
        56 => 1,
        57 => 11266,
        58 => 0,
        59 => 1,
        60 => 1031,
        61 => 0,
        62 => 1,
        63 => 14850,
        64 => 0,
        65 => 1,
        66 => 1288,
        67 => 0,
        68 => 31491,
        69 => 0,
        70 => 1,
        71 => 6,
        72 => 0,
        73 => 1,
        74 => 32002,
        75 => 0,
        76 => 1287,
        77 => 0,
        78 => 513,
        79 => 16131,
        80 => 0,
        81 => 513,
        82 => 0,
        83 => 513,
        84 => 14850,
        85 => 0,
        86 => 513,
        87 => 14,
        88 => 0,
        89 => 11778,
        90 => 0,
        91 => 12,
        92 => 0,
        93 => 10754,
        94 => 0,
        95 => 1,
        96 => 10754,
        97 => 0,
        98 => 18,
        99 => 0,
        100 => 32258,
        101 => 0,
        102 => 1,
        103 => 32258,
        104 => 0,
        105 => 32002,
        106 => 0,
        107 => 513,
        108 => 6157,
        109 => 0,
        110 => 513,
        111 => 6413,
        112 => 0,
        113 => 513,
        114 => 6669,
        115 => 0,
        116 => 513,
        117 => 6925,
        118 => 0,
        119 => 513,
        120 => 7181,
        121 => 0,
        122 => 513,
        123 => 7437,
        124 => 0,
        125 => 513,
        126 => 7693,
        127 => 0,
        128 => 513,
        129 => 7949,
        130 => 0,
        131 => 513,
        132 => 8205,
        133 => 0,
        134 => 513,
        135 => 8461,
        136 => 0,
        137 => 513,
        138 => 8717,
        139 => 0,
        140 => 513,
        141 => 8973,
        142 => 0,
        143 => 513,
        144 => 9229,
        145 => 0,
        _ => 0,
    }
}

// The move whose atoms begin at a, from p on.
pub fn walk(s: &[u8], left: usize, lines: bool, a: usize, p: usize) -> Result<usize, Refused>
    ensures { Walked s.now left lines a p (went_from result) }
{
    let mut i = a;
    let mut q = p;
    loop {
        let x = number(i);
        if x == 0 {
            return Ok(q);
        }
        q = atom(s, left, lines, (x % 256) as u8, (x / 256) as u8, q)?;
        i += 1;
    }
}
