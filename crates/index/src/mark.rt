// The mark of a key: a number that equal keys share.
ghost use Rattle.std.specs.Prelude.{◌≡◌, ◌≤◌, length, drop, true};
ghost use Rattle.lexis.specs.Bytes.{byte_at, is_start};
ghost use Rattle.lexis.specs.Keys.{rest_of};
ghost use Rattle.lexis.specs.String.{quoted, text_at, unpacked};
ghost use Rattle.index.specs.Mark.{mixed, mark_at, Mixed, WordTo, TokenHere};

use lexis::bytes::{byte_at, is_rest, is_start, within};
use lexis::string::{Round, run_at, unit_at};

// The mark m with the byte b behind it.
fn mix(m: u32, b: u32) -> u32
    requires { (m ≤ 65535) × (b ≤ 256) }
    ensures { (result ≡ mixed m b) × (result ≤ 65535) }
{
    (m * 40503 + b) % 65536
}

// The mark m with the bytes of a unit behind it: they are in one number, the first lowest, and n of them.
fn unit(m: u32, bytes: u32, n: u8) -> u32
    requires { m ≤ 65535 }
    ensures { Mixed m (unpacked n bytes) result }
{
    let mut m = m;
    let mut left = bytes;
    for _k in 0..n {
        m = mix(m, left % 256);
        left = left / 256;
    }
    m
}

// The mark of the quoted text from p on.
fn text(s: &[u8], p: usize) -> u32
    ensures { Mixed 0 (text_at quoted s.now p).bytes result }
{
    let mut m: u32 = 0;
    let mut i = p;
    while let Ok(u) = unit_at(s, i, true) {
        m = unit(m, u.bytes, u.count);
        i += u.width;
    }
    m
}

// The mark of the key at p, which is a word that ends at e: nothing but its bytes is looked at.
pub fn word_to(s: &[u8], p: usize, e: usize) -> u16
    requires { WordTo s.now p e }
    ensures { result ≡ mark_at s.now p }
{
    let mut m: u32 = 0;
    for b in &s[p..e] {
        m = mix(m, u32::from(*b));
    }
    m as u16
}

// The mark of the key at p.
pub fn mark(s: &[u8], p: usize) -> u16
    ensures { result ≡ mark_at s.now p }
{
    let b = byte_at(s, p);
    if b == 34 {
        return text(s, p + 1) as u16;
    }
    if !is_start(b) {
        return 0;
    }
    word_at(s, p).mark
}

// The first token of a key, a word or a plain string: its end, and the key's mark.
#[derive(Clone, Copy, Drop)]
pub struct Token {
    pub end: usize,
    pub mark: u16,
}

// The word at p, with one look at each of its bytes.
fn word_at(s: &[u8], p: usize) -> Token
    requires { is_start (byte_at s.now p) ≡ true }
    ensures { TokenHere s.now p result }
{
    let mut m: u32 = 0;
    for i in p..s.len() {
        let b = byte_at(s, i);
        if !within(b, 97, 122) && !is_rest(b) {
            return Token {
                end: i,
                mark: m as u16,
            };
        }
        m = mix(m, u32::from(b));
    }
    Token {
        end: s.len(),
        mark: m as u16,
    }
}

// The first token of the key at p; where there is none it ends at p.
pub fn token_at(s: &[u8], p: usize) -> Token
    ensures { TokenHere s.now p result }
{
    let b = byte_at(s, p);
    if is_start(b) {
        return word_at(s, p);
    }
    if b != 34 {
        return Token { end: p, mark: 0 };
    }
    let t = run_at(s, p + 1, Round::Quoted);
    let e = t.end;
    let m = text(s, p + 1);
    Token {
        end: e + 1,
        mark: m as u16,
    }
}
