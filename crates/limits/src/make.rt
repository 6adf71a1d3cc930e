// The source of a case.
ghost use Rattle.std.specs.Prelude.{◌<◌, ◌≤◌, length};

use input::byte;

// The bytes of a part.
const PART: usize = 16;

// Where a part has its length and its bytes.
const LENGTH: usize = 2;

const BYTES: usize = 3;

// How many bytes a part has at most.
const MOST: usize = 13;

// Four bytes from a place on, the lowest first.
fn four(b: &[u8], at: usize) -> usize
    requires { at < 8 }
{
    u32::from_le_bytes([
        byte(b, at),
        byte(b, at + 1),
        byte(b, at + 2),
        byte(b, at + 3),
    ]) as usize
}

// How many numbers are lent: the first four bytes.
pub fn numbers(case: &[u8]) -> usize {
    four(case, 0)
}

// How many text bytes: the next four.
pub fn bytes(case: &[u8]) -> usize {
    four(case, 4)
}

// Puts the bytes of a part at a place, as far as there is room, and gives back the place behind them.
fn once(part: &[u8], source: &mut [u8], from: usize) -> usize
    requires { from ≤ length source.old }
    ensures { result ≤ length source.new }
{
    let most = MOST.min(source.len() - from);
    let n = usize::from(byte(part, LENGTH)).min(most);
    for (to, b) in source[from..from + n]
        .iter_mut()
        .zip(part.iter().skip(BYTES))
    {
        *to = *b;
    }
    from + n
}

// The same as often as the part says.
fn times(part: &[u8], source: &mut [u8], from: usize) -> usize
    requires { from ≤ length source.old }
    ensures { result ≤ length source.new }
{
    let mut at = from;
    for _ in 0..u16::from_le_bytes([byte(part, 0), byte(part, 1)]) {
        at = once(part, source, at);
    }
    at
}

// The four parts, one behind the other.
pub fn source(case: &[u8], room: &mut [u8]) -> usize
    ensures { result ≤ length room.new }
{
    let mut at = 0;
    for part in case.chunks_exact(PART) {
        at = times(part, room, at);
    }
    at
}
