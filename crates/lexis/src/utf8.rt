// Well-formed UTF-8 (Unicode, Table 3-7).
ghost use Rattle.std.specs.Prelude.{◌≡◌, ◌+◌, ◌≤◌, ◌<◌, length, take, drop};
ghost use Rattle.lexis.specs.Bytes.{nonzero};
ghost use Rattle.lexis.specs.Utf8.{behind_of, sequence, greatest, ascii_block, FirstBad};

use crate::bytes::{byte_at, within};

// How many bytes are looked at in one go.
const BLOCK: usize = 64;

// The width of a sequence by what stands from p on, behind its first byte: a byte from low to high, then n - 1 tails.
fn behind(s: &[u8], p: usize, low: u16, high: u16, n: usize) -> Option<usize>
    requires { (p ≤ length s.now) × (high < 256) × (1 ≤ n) × (n ≤ 3) }
    ensures { result ≡ nonzero (behind_of (drop p s.now) low high n) }
{
    if !within(byte_at(s, p), low, high) {
        return None;
    }
    if n == 1 {
        return Some(2);
    }
    if !within(byte_at(s, p + 1), 0x80, 0xBF) {
        return None;
    }
    if n == 2 {
        return Some(3);
    }
    if within(byte_at(s, p + 2), 0x80, 0xBF) {
        Some(4)
    } else {
        None
    }
}

// The width of the well-formed sequence at p.
fn width(s: &[u8], p: usize) -> Option<usize>
    ensures { result ≡ nonzero (sequence (drop p s.now)) }
{
    let b = byte_at(s, p);
    if b < 0x80 {
        return Some(1);
    }
    if b < 0xC2 {
        return None;
    }
    if b < 0xE0 {
        return behind(s, p + 1, 0x80, 0xBF, 1);
    }
    if b == 0xE0 {
        return behind(s, p + 1, 0xA0, 0xBF, 2);
    }
    if b == 0xED {
        return behind(s, p + 1, 0x80, 0x9F, 2);
    }
    if b < 0xF0 {
        return behind(s, p + 1, 0x80, 0xBF, 2);
    }
    if b == 0xF0 {
        return behind(s, p + 1, 0x90, 0xBF, 3);
    }
    if b < 0xF4 {
        return behind(s, p + 1, 0x80, 0xBF, 3);
    }
    if b == 0xF4 {
        return behind(s, p + 1, 0x80, 0x8F, 3);
    }
    None
}

// The greatest byte of the block at p. A loop without a way out in its middle: it is compiled to a few wide operations.
fn highest(s: &[u8], p: usize) -> u8
    requires { p + 64 ≤ length s.now }
    ensures { result ≡ greatest (take 64 (drop p s.now)) }
{
    let mut m: u8 = 0;
    for b in &s[p..p + BLOCK] {
        m = m.max(*b);
    }
    m
}

// Whether a whole block of ASCII stands at p.
fn ascii_at(s: &[u8], p: usize) -> bool
    requires { p ≤ length s.now }
    ensures { result ≡ ascii_block (drop p s.now) }
{
    BLOCK <= s.len() - p && highest(s, p) < 0x80
}

// The first byte of the first bad sequence; the length where there is none. Most blocks are ASCII, and passed at once.
pub fn first_bad(s: &[u8]) -> usize
    ensures { FirstBad s.now result }
{
    let mut i = 0;
    loop {
        if ascii_at(s, i) {
            i += BLOCK;
            continue;
        }
        for _n in 0..BLOCK {
            let Some(w) = width(s, i) else {
                return i;
            };
            i += w;
        }
    }
}
