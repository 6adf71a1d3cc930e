// Numbers, and the legacy index.
ghost use Rattle.std.specs.Prelude.{◌≡◌};
ghost use Rattle.lexis.specs.Bytes.{Ran};
ghost use Rattle.lexis.specs.Number.{digits_to, fraction_to, sign_to, is_exponent, exponent_to, number_to, index_of, Indexed};

use crate::bytes::{byte_at, is_digit};

// A legacy index that is over the limit, and where its digits end.
#[derive(Clone, Copy, Debug, PartialEq, Eq, Drop)]
pub struct Over {
    pub end: usize,
}

impl Over {
    // The largest index.
    pub const LIMIT: u64 = 18446744073709551615;
}

// The end of the digits from p on; p where none stands.
pub fn digits_end(s: &[u8], p: usize) -> usize
    ensures { Ran s.now p (digits_to s.now p) result }
{
    for i in p..s.len() {
        if !is_digit(byte_at(s, i)) {
            return i;
        }
    }
    p.max(s.len())
}

// The end of the `.` and digits at p; p where they do not stand.
fn fraction_end(s: &[u8], p: usize) -> usize
    ensures { Ran s.now p (fraction_to s.now p) result }
{
    let b = byte_at(s, p);
    if b != 46 {
        return p;
    }
    let e = digits_end(s, p + 1);
    if e == p + 1 { p } else { e }
}

// Past the sign at p, if there is one.
fn sign_end(s: &[u8], p: usize) -> usize
    ensures { Ran s.now p (sign_to s.now p) result }
{
    let b = byte_at(s, p);
    if b == 43 {
        return p + 1;
    }
    if b == 45 { p + 1 } else { p }
}

fn is_exponent(b: u16) -> bool
    ensures { result ≡ is_exponent b }
{
    b == 101 || b == 69
}

// The end of the `e` or `E`, sign and digits at p; p where they do not stand.
fn exponent_end(s: &[u8], p: usize) -> usize
    ensures { Ran s.now p (exponent_to s.now p) result }
{
    let b = byte_at(s, p);
    if !is_exponent(b) {
        return p;
    }
    let d = sign_end(s, p + 1);
    let e = digits_end(s, d);
    if e == d { p } else { e }
}

// The end of the longest number at p; p where none starts.
pub fn number_end(s: &[u8], p: usize) -> usize
    ensures { Ran s.now p (number_to s.now p) result }
{
    let d = digits_end(s, p);
    if d == p {
        return p;
    }
    let f = fraction_end(s, d);
    exponent_end(s, f)
}

// The end of the legacy index at p; p where none starts.
pub fn index_at(s: &[u8], p: usize) -> Result<usize, Over>
    ensures { Indexed s.now p (index_of result) }
{
    if byte_at(s, p) == 48 {
        return Ok(p + 1);
    }
    let mut v: u64 = 0;
    for i in p..s.len() {
        let c = byte_at(s, i);
        if !is_digit(c) {
            return Ok(i);
        }
        let d = u64::from(c - 48);
        // ten times v and d are over the limit
        if (Over::LIMIT - d) / 10 < v {
            let end = digits_end(s, i + 1);
            return Err(Over { end });
        }
        v = v * 10 + d;
    }
    Ok(p.max(s.len()))
}
