// What an object tells of its keys, so that nobody looks for their ends twice: in `told` a 0 for each row that is known to be a key from end to end.
ghost use Rattle.std.specs.Prelude.{true, ◌<◌, length};
ghost use Rattle.checker.specs.Told.{Telling, Tells};
ghost use Rattle.checker.specs.Node.{SingleBy};

use crate::row::Spot;
use grammar::kinds::Kind;
use lexis::bytes::one_at;

// Of the key of the item in a row, from `at` to `end`: where it stands alone, and the first row below the item is from there to there, that is put down.
pub fn tell(spot: Spot, told: &mut [u16], at: usize, end: usize, alone: bool)
    requires { spot.i < length told.old }
    ensures { Tells spot.entry.table.now told.old told.new at end alone }
{
    if !alone {
        return;
    }
    let count = spot.count();
    if count == 0 {
        return;
    }
    if spot.i + 1 < count {
        return;
    }
    let k = spot.i + 1 - count;
    let first = Spot {
        table: spot.table,
        i: k,
    };
    if first.start() != at {
        return;
    }
    if first.end() != end {
        return;
    }
    told[k] = 0;
}

// Whether the row, which has no children, is a bare key by what was told of it. A key that is no constant for its length alone is told so: any other is left to others.
pub fn keyed(s: &[u8], spot: Spot, told: &[u16], lines: bool) -> bool
    requires { Telling s.now spot.table.now spot.i told.now }
    ensures { SingleBy s.now spot.entry.table.now spot.entry.i lines (record { sure = result; yes = true }) }
{
    if spot.kind() != Kind::KEY {
        return false;
    }
    if told[spot.i] != 0 {
        return false;
    }
    if lines {
        return false;
    }
    if spot.flag() != 0 {
        return false;
    }
    let p = spot.start();
    if spot.end() < p + 6 {
        return false;
    }
    !one_at(s, p, 34)
}
