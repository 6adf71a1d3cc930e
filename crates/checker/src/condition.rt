// The condition of a for, gone through with no program.
ghost use Rattle.std.specs.Prelude.{◌≡◌};
ghost use Rattle.grammar.specs.Layouts.{filters_lay};
ghost use Rattle.checker.specs.Rows.{row_at};
ghost use Rattle.checker.specs.Lay.{Direct};
ghost use Rattle.checker.specs.Rest.{RestBy};

use crate::site::Site;
use grammar::moves::space;
use grammar::program::Want;
use lexis::word::if_end;

// `if` at p, and an expression.
pub fn condition(site: Site, depths: &mut [u8], j: usize, p: usize) -> bool
    requires { Direct site.table.now site.i site.marks.now depths.old j × ((row_at site.table.now site.i).kind ≡ 20) }
    ensures { RestBy site.entry.s.now site.entry.table.now site.entry.i site.entry.own site.entry.marks.now depths.old depths.new filters_lay j p result }
{
    let e = if_end(site.s, p);
    if e == p {
        return false;
    }
    let Ok(w) = space(site.s, e, true) else {
        return false;
    };
    if !site.kid(depths, j, w, 0, Want::Expression, site.own) {
        return false;
    }
    site.ends(site.next(j), site.end(j), 0)
}
