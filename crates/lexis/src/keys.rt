// Equal keys of an object.
ghost use Rattle.std.specs.Prelude.{◌≡◌, [], true, drop};
ghost use Rattle.lexis.specs.String.{unit, UnitAt};
ghost use Rattle.lexis.specs.Keys.{alike, rest_of, plain, string_at, same_as, same_key, met_before};

use crate::bytes::{byte_at, is_rest, is_start};
use crate::string::{Unit, Why, unit_at};

const QUOTE: u16 = 34;

// Whether the same identifier characters stand from a on and from b on.
fn same_rest(s: &[u8], a: usize, b: usize) -> bool
    ensures { result ≡ alike (rest_of (drop a s.now)) (rest_of (drop b s.now)) }
{
    let mut i = a;
    let mut j = b;
    loop {
        let x = byte_at(s, i);
        let y = byte_at(s, j);
        if !is_rest(x) {
            return !is_rest(y);
        }
        if x != y {
            return false;
        }
        i += 1;
        j += 1;
    }
}

// The unit at p of a key's text: `unit_at` as a function of its own, since keys with quotes are rarely compared.
#[inline(never)]
fn key_unit(s: &[u8], p: usize) -> Result<Unit, Why>
    ensures { UnitAt s.now (unit true (drop p s.now)) p result }
{
    unit_at(s, p, true)
}

// Whether the string whose text starts at p has none and is closed at once.
fn closes_at(s: &[u8], p: usize) -> bool
    ensures { result ≡ same_as (plain []) (string_at s.now p) }
{
    match key_unit(s, p) {
        Ok(_) => false,
        Err(why) => why == Why::Quote,
    }
}

// Whether two plain strings, whose text starts at a and at b, have the same text. Units are read as they are needed, and compared byte by byte: u and v are
// what is left of a unit's bytes on each side, the first lowest, and n and m how many they are.
fn same_text(s: &[u8], a: usize, b: usize) -> bool
    ensures { result ≡ same_as (string_at s.now a) (string_at s.now b) }
{
    let mut i = a;
    let mut u: u32 = 0;
    let mut n: u8 = 0;
    let mut j = b;
    let mut v: u32 = 0;
    let mut m: u8 = 0;
    loop {
        if n == 0 {
            match key_unit(s, i) {
                Ok(x) => {
                    i += x.width;
                    u = x.bytes;
                    n = x.count;
                }
                Err(why) => {
                    return m == 0 && why == Why::Quote && closes_at(s, j);
                }
            }
            continue;
        }
        if m == 0 {
            let Ok(y) = key_unit(s, j) else {
                return false;
            };
            j += y.width;
            v = y.bytes;
            m = y.count;
            continue;
        }
        if u % 256 != v % 256 {
            return false;
        }
        u = u / 256;
        n -= 1;
        v = v / 256;
        m -= 1;
    }
}

// Whether the keys at a and at b are equal.
pub fn same_key(s: &[u8], a: usize, b: usize) -> bool
    ensures { result ≡ same_key s.now a b }
{
    let x = byte_at(s, a);
    let y = byte_at(s, b);
    if x != y {
        return false;
    }
    if x == QUOTE {
        return same_text(s, a + 1, b + 1);
    }
    if !is_start(x) {
        return false;
    }
    same_rest(s, a + 1, b + 1)
}

// Whether the key at p is equal to an earlier one, at one of the places starts[from..to]. Both loops are left at the first equal key.
pub fn met_before(s: &[u8], starts: &[u16], from: usize, to: usize, p: usize) -> bool
    ensures { result ≡ met_before s.now starts.now from to p }
{
    let first = byte_at(s, p);
    let end = to.min(starts.len());
    let mut met = false;
    'keys: for k in from..end {
        let a = usize::from(starts[k]);
        if byte_at(s, a) != first {
            continue 'keys;
        }
        if first == QUOTE {
            if same_text(s, a + 1, p + 1) {
                met = true;
                break 'keys;
            }
            continue 'keys;
        }
        if !is_start(first) {
            return false;
        }
        let mut i = a + 1;
        let mut j = p + 1;
        loop {
            let x = byte_at(s, i);
            let y = byte_at(s, j);
            if !is_rest(x) {
                if is_rest(y) {
                    continue 'keys;
                }
                met = true;
                break 'keys;
            }
            if x != y {
                continue 'keys;
            }
            i += 1;
            j += 1;
        }
    }
    met
}
