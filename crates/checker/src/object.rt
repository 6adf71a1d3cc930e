// An object, gone through with no program: its items, and what stands between them.
ghost use Rattle.std.specs.Prelude.{◌≡◌, ◌/◌, ◌%◌, eqb};
ghost use Rattle.checker.specs.Rows.{row_at};
ghost use Rattle.checker.specs.Lay.{Laying, LaidBy};
ghost use Rattle.checker.specs.Told.{Told, Telling};

use crate::lone::{Memo, alone};
use crate::moves::{Onward, after};
use crate::pass::pass;
use crate::row::Spot;
use crate::site::Site;
use crate::told::tell;
use grammar::moves::space;
use index::mark::token_at;
use lexis::operator::mark_end;

// The class of an object's items.
const ITEMS: u8 = 7;

// Whether the layout of the row, an object, goes from p over the items from the row `first` on, and ends where the row does.
pub fn object(
    site: Site,
    depths: &mut [u8],
    keys: &mut [u16],
    told: &mut [u16],
    first: usize,
    p: usize,
) -> bool
    requires { Laying site.table.now site.i site.marks.now depths.old keys.old first (site.own / 2) × ((row_at site.table.now site.i).kind ≡ 12) × Telling site.s.now site.table.now site.i told.old }
    ensures { LaidBy site.entry.s.now site.entry.table.now site.entry.i site.entry.marks.now depths.old depths.new first p (site.entry.own / 2) (eqb (site.entry.own % 2) 1) result × Told site.entry.s.now site.entry.table.now told.new }
{
    if site.own < 2 {
        return false;
    }
    let b = mark_end(site.s, p, 123);
    if b == p {
        return false;
    }
    let Ok(mut at) = space(site.s, b, true) else {
        return false;
    };
    let e = mark_end(site.s, at, 125);
    if e != at {
        return site.ends(first, e, 0);
    }
    let mut j = first;
    let mut n = 0;
    let mut memo = Memo {
        from: 1,
        to: 0,
        yes: false,
    };
    loop {
        let t = token_at(site.s, at);
        let key = alone(site.s, t.end, memo);
        let Some(c) = pass(site, depths, keys, j, n, ITEMS, at, t.mark, key.yes) else {
            return false;
        };
        let item = Spot {
            table: site.table,
            i: j,
        };
        tell(item, told, at, t.end, key.yes);
        at = match after(site.s, c.end) {
            Some(Onward::Next(q)) => q,
            Some(Onward::Closed(q)) => return site.ends(c.next, q, 0),
            None => return false,
        };
        j = c.next;
        n = c.keys;
        memo = key.memo;
    }
}
