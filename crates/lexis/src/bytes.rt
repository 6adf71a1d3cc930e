// The byte at a place, and the classes of bytes.
ghost use Rattle.std.specs.Prelude.{◌≡◌, [], ◌∷◌};
ghost use Rattle.lexis.specs.Bytes.{Byte, is_within, is_space, is_digit, is_letter, is_hex, is_start, is_rest, is_foreign, stands};

pub const NOTHING: u16 = 256;

// The byte at p; NOTHING past the end.
pub fn byte_at(s: &[u8], p: usize) -> u16
    ensures { Byte s.now p result }
{
    if p < s.len() {
        u16::from(s[p])
    } else {
        NOTHING
    }
}

pub fn is_space(b: u16) -> bool
    ensures { result ≡ is_space b }
{
    b == 32 || b == 9
}

// Whether b is one of the bytes from low to high.
pub fn within(b: u16, low: u16, high: u16) -> bool
    ensures { result ≡ is_within low high b }
{
    low <= b && b <= high
}

pub fn is_digit(b: u16) -> bool
    ensures { result ≡ is_digit b }
{
    within(b, 48, 57)
}

pub fn is_letter(b: u16) -> bool
    ensures { result ≡ is_letter b }
{
    within(b, 65, 90) || within(b, 97, 122)
}

pub fn is_hex(b: u16) -> bool
    ensures { result ≡ is_hex b }
{
    is_digit(b) || (within(b, 65, 70) || within(b, 97, 102))
}

// Whether an identifier can start with b.
pub fn is_start(b: u16) -> bool
    ensures { result ≡ is_start b }
{
    is_letter(b) || b == 95
}

// Whether an identifier can go on with b. What ends one is mostly space or a mark below the digits.
pub fn is_rest(b: u16) -> bool
    ensures { result ≡ is_rest b }
{
    if b < 45 {
        return false;
    }
    if b < 58 {
        return b == 45 || 48 <= b;
    }
    is_start(b)
}

// Whether b is the first byte of a scalar of 128 or more.
pub fn is_foreign(b: u16) -> bool
    ensures { result ≡ is_foreign b }
{
    within(b, 128, 255)
}

// Whether the byte a stands at p.
pub fn one_at(s: &[u8], p: usize, a: u8) -> bool
    ensures { result ≡ stands (a ∷ []) s.now p }
{
    p < s.len() && s[p] == a
}

// Whether the bytes a and b stand at p.
pub fn two_at(s: &[u8], p: usize, a: u8, b: u8) -> bool
    ensures { result ≡ stands (a ∷ b ∷ []) s.now p }
{
    one_at(s, p, a) && one_at(s, p + 1, b)
}

// Whether the bytes of w stand at p.
pub fn all_at(s: &[u8], p: usize, w: &[u8]) -> bool
    ensures { result ≡ stands w.now s.now p }
{
    // byte by byte: most often the first byte tells
    for i in 0..w.len() {
        if !one_at(s, p + i, w[i]) {
            return false;
        }
    }
    true
}
