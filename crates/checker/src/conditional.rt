// A conditional, gone through with no program: `?` and `:`, each with an expression behind it.
ghost use Rattle.std.specs.Prelude.{◌≡◌, ◌≤◌};
ghost use Rattle.grammar.specs.Layouts.{conditional_lay};
ghost use Rattle.checker.specs.Rows.{row_at};
ghost use Rattle.checker.specs.Lay.{Seating, Direct};
ghost use Rattle.checker.specs.Rest.{StepBy, RestBy, branch_lay};

use crate::site::Site;
use grammar::moves::space;
use grammar::program::Want;
use lexis::operator::mark_end;

// A mark behind the trivia from p on, and an expression, a level deeper than a depth.
fn branch(site: Site, depths: &mut [u8], j: usize, p: usize, mark: u8) -> bool
    requires { Seating site.table.now site.i depths.old j × (2 ≤ site.own) × ((row_at site.table.now site.i).kind ≡ 21) }
    ensures { StepBy site.entry.s.now site.entry.table.now site.entry.i site.entry.own depths.old depths.new (branch_lay mark) j p result }
{
    let lines = site.lines();
    let Ok(at) = space(site.s, p, lines) else {
        return false;
    };
    let e = mark_end(site.s, at, mark);
    if e == at {
        return false;
    }
    let Ok(w) = space(site.s, e, lines) else {
        return false;
    };
    site.kid(depths, j, w, 0, Want::Expression, site.own - 2)
}

// The second and the third part, behind a condition that ends at p.
pub fn conditional(site: Site, depths: &mut [u8], j: usize, p: usize) -> bool
    requires { Direct site.table.now site.i site.marks.now depths.old j × ((row_at site.table.now site.i).kind ≡ 21) }
    ensures { RestBy site.entry.s.now site.entry.table.now site.entry.i site.entry.own site.entry.marks.now depths.old depths.new conditional_lay j p result }
{
    if site.own < 2 {
        return false;
    }
    if !branch(site, depths, j, p, 63) {
        return false;
    }
    let q = site.end(j);
    let k = site.next(j);
    if !branch(site, depths, k, q, 58) {
        return false;
    }
    site.ends(site.next(k), site.end(k), 0)
}
