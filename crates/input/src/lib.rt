#![tactic(auto)]
// What the programs read, from any reader.
ghost use Rattle.std.specs.Prelude.{◌≡◌, IfOk, take, get_or};
ghost use Rattle.std.specs.Io.{ReadsAtMost};
ghost use Rattle.std.specs.Io.KnownBytes.{Consumes};
ghost use Rattle.input.specs.Fills.{Fills, Next};

use std::io::{self, ErrorKind, Read};

// The bytes of a length.
const HEAD: usize = 4;

// Reads until the buffer is full or the input ends, and gives back how many bytes there are. An error is one that `from` gave.
pub fn fill<R: Read>(from: &mut R, buf: &mut [u8]) -> io::Result<usize>
    ensures within { ReadsAtMost result buf.new }
    ensures bytes { IfOk result (λ n. Consumes (R.remaining from.old) (R.remaining from.new) (take n buf.new)) }
{
    let mut n = 0;
    // so many reads fill any buffer; one that was interrupted is made again
    for _ in 0..u64::MAX {
        match from.read(&mut buf[n..]) {
            Ok(0) => break,
            Ok(k) => n += k,
            Err(e) if e.kind() == ErrorKind::Interrupted => {}
            Err(e) => return Err(e),
        }
    }
    Ok(n)
}

// Whether the input fills all of a part.
pub fn fills<R: Read>(from: &mut R, part: &mut [u8]) -> io::Result<bool>
    ensures { IfOk result (λ full. Fills (R.remaining from.old) (R.remaining from.new) part.new full) }
{
    Ok(fill(from, part)? == part.len())
}

// The next length of the input, its lowest byte first; none where the input does not hold one.
pub fn length<R: Read>(from: &mut R) -> io::Result<Option<usize>>
    ensures { IfOk result (λ number. Next (R.remaining from.old) (R.remaining from.new) number) }
{
    let mut head = [0u8; HEAD];
    if !fills(from, &mut head)? {
        return Ok(None);
    }
    Ok(Some(u32::from_le_bytes(head) as usize))
}

// The byte at k; 0 past the end.
pub fn byte(b: &[u8], k: usize) -> u8
    ensures { result ≡ get_or b.now k 0 }
{
    b.get(k).copied().unwrap_or(0)
}
