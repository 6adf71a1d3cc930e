// A source from its first byte to its last.
ghost use Rattle.std.specs.Prelude.{◌*◌, ◌≤◌, length};
ghost use Rattle.reader.specs.Said.{answered, Said};
ghost use Rattle.reader.specs.Read.{Wholes};

use crate::Reading;
use crate::at::{At, Level};
use crate::tree::expr;
use grammar::kinds::Refused;
use grammar::moves::{space, unexpected};

// An expression from the first byte to the last.
pub fn whole(
    s: &[u8],
    nodes: &mut [u16],
    text: &mut [u8],
    keys: &mut [u16],
) -> Result<Reading, Refused>
    requires { (length s.now ≤ 65535) × (4 * length s.now ≤ 3 * length keys.old) }
    ensures { Said (Wholes s.now) s.now 0 0 0 0 nodes.old nodes.new text.old text.new keys.old keys.new (answered result) }
{
    let at = At {
        records: 0,
        text: 0,
        keys: 0,
        place: 0,
    };
    let level = Level {
        left: 64,
        lines: false,
    };
    let m = expr(s, nodes, text, keys, at, level, 0)?;
    if m.end == s.len() {
        return Ok(m);
    }
    let g = space(s, m.end, false)?;
    Err(unexpected(s, g))
}
