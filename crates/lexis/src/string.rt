// Literal text, quoted and in heredocs.
ghost use Rattle.std.specs.Prelude.{◌≡◌, ◌+◌, ◌-◌, ◌≤◌, ◌<◌, length, drop, [], ◌∷◌, true, cond, Some, None, IfSome};
ghost use Rattle.std.proofs.Math.Seq.{paste};
ghost use Rattle.lexis.specs.Bytes.{byte_at, is_hex, run_to, Ran};
ghost use Rattle.lexis.specs.Utf8.{is_scalar};
ghost use Rattle.lexis.specs.String.{made_of, answer_of, is, hex_of, scalar_of, scalar, escape, marker, unit, unit_in, plain_in, quoted_of, from_of, to_of, mode_from, text_at, packed, UnitAt, RunHere, unpacked, Wrote};

use crate::bytes::{NOTHING, byte_at, is_digit, within};
use crate::heredoc::{Line, line_at, starts_line};

// Why a run of literal text ends, or no unit stands at a place.
#[derive(Clone, Copy, Debug, PartialEq, Eq, Drop)]
pub enum Why {
    Quote,
    Interpolation,
    Directive,
    Escape,
    Closing,
    Foreign,
    End,
}

// The text round a run: quoted, or a heredoc whose delimiter stands in the source from `from` to `to`.
#[derive(Clone, Copy, Debug, PartialEq, Eq, Drop)]
pub enum Round {
    Quoted,
    Heredoc { from: usize, to: usize },
}

impl Round {
    // Where a heredoc's delimiter stands; nowhere in quoted text.
    pub fn delimiter(self) -> (usize, usize)
        ensures { result ≡ (from_of self, to_of self) }
    {
        match self {
            Round::Quoted => (0, 0),
            Round::Heredoc { from, to } => (from, to),
        }
    }

    pub fn is_quoted(self) -> bool
        ensures { result ≡ quoted_of self }
    {
        match self {
            Round::Quoted => true,
            Round::Heredoc { .. } => false,
        }
    }
}

// A unit: its width, and its unescaped bytes in one number, the first lowest, and how many they are.
#[derive(Clone, Copy, Debug, PartialEq, Eq, Drop)]
pub struct Unit {
    pub width: usize,
    pub bytes: u32,
    pub count: u8,
}

// A run: where and why it ends, whether it has an escape or an escaped marker, and the length of its unescaped text.
#[derive(Clone, Copy, Drop)]
pub struct Run {
    pub end: usize,
    pub length: usize,
    pub why: Why,
    pub escaped: bool,
}

const LAST_SCALAR: u32 = 0x10FFFF;

const BRACE: u16 = 123;

// The unit of so many bytes with the given text: its bytes in one number, and how many they are.
fn made(width: usize, bytes: u32, count: u8) -> Unit
    ensures { result ≡ made_of width bytes count }
{
    Unit {
        width: width,
        bytes: bytes,
        count: count,
    }
}

// The unit of so many bytes whose text is the byte b.
fn one(width: usize, b: u8) -> Unit
    ensures { result ≡ made_of width (packed (b ∷ [])) 1 }
{
    made(width, u32::from(b), 1)
}

// The value of a hexadecimal digit.
fn hex_value(b: u16) -> Option<u8>
    ensures value { result ≡ cond (is_hex b) (Some (hex_of b)) None }
    ensures low { IfSome result (λ d. d < 16) }
{
    if is_digit(b) {
        return Some((b - 48) as u8);
    }
    if within(b, 97, 102) {
        return Some((b - 87) as u8);
    }
    if within(b, 65, 70) {
        return Some((b - 55) as u8);
    }
    None
}

// Whether v is a scalar: no surrogate, and nothing over 10FFFF.
fn is_scalar(v: u32) -> bool
    ensures { result ≡ is_scalar v }
{
    v < 0xD800 || (0xDFFF < v && v <= LAST_SCALAR)
}

// The escape of so many bytes that is worth v.
fn encode(width: usize, v: u32) -> Result<Unit, Why>
    requires { v ≤ 0x10FFFF }
    ensures { result ≡ answer_of (scalar_of width v) }
{
    if !is_scalar(v) {
        return Err(Why::Escape);
    }
    let last = 0x80 + v % 64;
    if v < 0x80 {
        return Ok(made(width, v, 1));
    }
    if v < 0x800 {
        return Ok(made(width, (0xC0 + v / 64) + 256 * last, 2));
    }
    let third = 0x80 + v / 64 % 64;
    if v < 0x10000 {
        return Ok(made(width, (0xE0 + v / 4096) + 256 * third + 65536 * last, 3));
    }
    let second = 0x80 + v / 4096 % 64;
    Ok(made(
        width,
        (0xF0 + v / 262144) + 256 * second + 65536 * third + 16777216 * last,
        4,
    ))
}

// The escape with n hexadecimal digits from p on. Like all that `unit_at` asks, it is put into it.
#[inline(always)]
fn scalar_at(s: &[u8], p: usize, n: usize) -> Result<Unit, Why>
    requires { (p ≤ length s.now) × (n ≤ 8) }
    ensures { result ≡ answer_of (scalar n (drop p s.now)) }
{
    let mut v: u32 = 0;
    for k in 0..n {
        let Some(d) = hex_value(byte_at(s, p + k)) else {
            return Err(Why::Escape);
        };
        v = v * 16 + u32::from(d);
        if LAST_SCALAR < v {
            return Err(Why::Escape);
        }
    }
    encode(n + 2, v)
}

// The escape whose letter is at p.
#[inline(always)]
fn escape_at(s: &[u8], p: usize) -> Result<Unit, Why>
    requires { p ≤ length s.now }
    ensures { result ≡ answer_of (escape (byte_at s.now p) (drop (p + 1) s.now)) }
{
    let b = byte_at(s, p);
    if b == 110 {
        return Ok(one(2, b'\n'));
    }
    if b == 114 {
        return Ok(one(2, b'\r'));
    }
    if b == 116 {
        return Ok(one(2, b'\t'));
    }
    if b == 92 {
        return Ok(one(2, b'\\'));
    }
    if b == 34 {
        return Ok(one(2, b'"'));
    }
    if b == 117 {
        return scalar_at(s, p + 1, 4);
    }
    if b == 85 {
        return scalar_at(s, p + 1, 8);
    }
    Err(Why::Escape)
}

// The unit at p, where b, a `$` or a `%`, stands: an escaped marker; a marker, which ends the text; or the byte itself.
fn marker_at(s: &[u8], p: usize, b: u8, why: Why) -> Result<Unit, Why>
    requires { (p < length s.now) × (b < 123) }
    ensures { result ≡ answer_of (marker why b (byte_at s.now (p + 1)) (byte_at s.now (p + 2))) }
{
    let c = byte_at(s, p + 1);
    if c == BRACE {
        return Err(why);
    }
    if c != u16::from(b) {
        return Ok(one(1, b));
    }
    if byte_at(s, p + 2) != BRACE {
        return Ok(one(1, b));
    }
    Ok(made(3, u32::from(b) + 256 * u32::from(BRACE), 2))
}

// The unit at p, in quoted text or in a heredoc. It is put into what goes through a text unit by unit, so that no answer goes through memory there.
#[inline(always)]
pub fn unit_at(s: &[u8], p: usize, quoted: bool) -> Result<Unit, Why>
    ensures { UnitAt s.now (unit quoted (drop p s.now)) p result }
{
    if s.len() <= p {
        return Err(Why::End);
    }
    let b = s[p];
    if b == b'$' {
        return marker_at(s, p, b'$', Why::Interpolation);
    }
    if b == b'%' {
        return marker_at(s, p, b'%', Why::Directive);
    }
    if !quoted {
        return Ok(one(1, b));
    }
    if b == b'"' {
        return Err(Why::Quote);
    }
    if b == b'\\' {
        return escape_at(s, p + 1);
    }
    Ok(one(1, b))
}

// The unit at p, in the text round it; fresh: a line starts at p.
fn unit_in(s: &[u8], p: usize, round: Round, fresh: bool) -> Result<Unit, Why>
    ensures { UnitAt s.now (unit_in (mode_from s.now round) fresh (drop p s.now)) p result }
{
    if s.len() <= p {
        return Err(Why::End);
    }
    match round {
        Round::Quoted => unit_at(s, p, true),
        Round::Heredoc { from, to } => {
            if !fresh {
                return unit_at(s, p, false);
            }
            match line_at(s, from, to, p) {
                Line::Text => unit_at(s, p, false),
                Line::Closes(_) => Err(Why::Closing),
                Line::Foreign(_) => Err(Why::Foreign),
            }
        }
    }
}

// Whether b is text as it stands and ends no line of a heredoc. Most bytes are such, and most of them are letters, over the backslash.
fn is_plain(b: u16, quoted: bool) -> bool
    ensures { result ≡ plain_in quoted b }
{
    if 92 < b {
        return b != NOTHING;
    }
    if 37 < b {
        if !quoted {
            return true;
        }
        return b != 92;
    }
    if 35 < b {
        return false;
    }
    if !quoted {
        return b != 10;
    }
    b != 34
}

// Past the bytes from p on that are text as they stand. A run is mostly such bytes, so they have a loop of their own.
fn plain_end(s: &[u8], p: usize, quoted: bool) -> usize
    ensures { Ran s.now p (run_to (plain_in quoted) s.now p) result }
{
    for i in p..s.len() {
        if !is_plain(byte_at(s, i), quoted) {
            return i;
        }
    }
    p.max(s.len())
}

// The longest run of literal text from p, in the text round it.
pub fn run_at(s: &[u8], p: usize, round: Round) -> Run
    ensures { RunHere (mode_from s.now round) s.now p result }
{
    let quoted = round.is_quoted();
    let mut i = p;
    let mut n = 0;
    let mut fresh = starts_line(s, p);
    loop {
        if quoted || !fresh {
            let k = plain_end(s, i, quoted);
            n += k - i;
            i = k;
        }
        // most quoted text ends here; what is unescaped is shorter than what it was
        if quoted && byte_at(s, i) == 34 {
            return Run {
                end: i,
                length: n,
                why: Why::Quote,
                escaped: n < i - p,
            };
        }
        match unit_in(s, i, round, fresh) {
            Ok(u) => {
                i += u.width;
                n += usize::from(u.count);
                fresh = u.bytes == 10;
            }
            Err(why) => {
                return Run {
                    end: i,
                    length: n,
                    why: why,
                    escaped: n < i - p,
                };
            }
        }
    }
}

// The unescaped bytes of a unit, written at a place.
fn put(buf: &mut [u8], at: usize, bytes: u32, count: u8)
    requires { at + count ≤ length buf.old }
    ensures { buf.new ≡ paste buf.old at (unpacked count bytes) count }
{
    let mut left = bytes;
    for k in 0..usize::from(count) {
        buf[at + k] = (left % 256) as u8;
        left = left / 256;
    }
}

// The unescaped text of the run from p, written into a buffer at a place. Where it does not fit, nothing is written, and the answer is no.
pub fn write(s: &[u8], p: usize, round: Round, buf: &mut [u8], at: usize) -> bool
    ensures { Wrote buf.old buf.new at (text_at (mode_from s.now round) s.now p).bytes result }
{
    let r = run_at(s, p, round);
    let end = r.end;
    if buf.len() < at {
        return false;
    }
    if buf.len() - at < r.length {
        return false;
    }
    let mut i = p;
    let mut j = 0;
    while i < end {
        let u = unit_at(s, i, round.is_quoted()).unwrap();
        put(buf, at + j, u.bytes, u.count);
        i += u.width;
        j += usize::from(u.count);
    }
    true
}
