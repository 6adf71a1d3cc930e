// Names and attributes, gone through with no program: they have no children.
ghost use Rattle.std.specs.Prelude.{◌≡◌};
ghost use Rattle.checker.specs.Rows.{row_at};
ghost use Rattle.checker.specs.Token.{BareBy, DotBy};

use crate::lay::ends;
use crate::row::Spot;
use grammar::moves::space;
use lexis::operator::mark_end;
use lexis::word::ident_end;

// A name from p on: an identifier.
pub fn name(s: &[u8], spot: Spot, j: usize, p: usize) -> bool
    requires { (row_at spot.table.now spot.i).kind ≡ 17 }
    ensures { BareBy s.now spot.entry.table.now spot.entry.i j p result }
{
    let e = ident_end(s, p);
    if e == p {
        return false;
    }
    ends(spot, j, e, 0)
}

// An attribute from p on: a dot, any trivia and an identifier.
pub fn attribute(s: &[u8], spot: Spot, j: usize, p: usize) -> bool
    requires { (row_at spot.table.now spot.i).kind ≡ 38 }
    ensures { DotBy s.now spot.entry.table.now spot.entry.i j p result }
{
    let d = mark_end(s, p, 46);
    if d == p {
        return false;
    }
    let Ok(at) = space(s, d, true) else {
        return false;
    };
    let e = ident_end(s, at);
    if e == at {
        return false;
    }
    ends(spot, j, e, 0)
}
