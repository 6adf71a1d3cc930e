// The layouts of items and of binary operators, gone through with no program.
ghost use Rattle.std.specs.Prelude.{◌≡◌, ◌+◌, ◌/◌, ◌%◌, T, eqb};
ghost use Rattle.engine.specs.Base.{has};
ghost use Rattle.checker.specs.Rows.{row_at};
ghost use Rattle.checker.specs.Program.{laid_out};
ghost use Rattle.checker.specs.Lay.{Direct, LaidBy, OperatorBy};

use crate::moves::sign;
use crate::site::Site;
use grammar::kinds::tight;
use grammar::moves::space;
use grammar::program::Want;

// A depth, where no line end may stand.
fn one_line(own: u8) -> u8
    ensures { result ≡ own / 2 + own / 2 }
{
    own / 2 * 2
}

// An item from p on: its key, the sign and its value.
pub fn item(site: Site, depths: &mut [u8], first: usize, p: usize) -> bool
    requires { Direct site.table.now site.i site.marks.now depths.old first × ((row_at site.table.now site.i).kind ≡ 13) }
    ensures { LaidBy site.entry.s.now site.entry.table.now site.entry.i site.entry.marks.now depths.old depths.new first p (site.entry.own / 2) (eqb (site.entry.own % 2) 1) result }
{
    if !site.kid(depths, first, p, 0, Want::Key, one_line(site.own)) {
        return false;
    }
    let Some(g) = sign(site.s, site.end(first)) else {
        return false;
    };
    let Ok(w) = space(site.s, g.at, false) else {
        return false;
    };
    let j = site.next(first);
    if !site.kid(depths, j, w, 0, Want::Expression, site.own) {
        return false;
    }
    site.ends(site.next(j), site.end(j), g.flag)
}

// A binary operator that ends at e, and its right operand.
pub fn operator(site: Site, depths: &mut [u8], j: usize, e: usize) -> bool
    requires { Direct site.table.now site.i site.marks.now depths.old j × T (has laid_out (row_at site.table.now site.i).kind) }
    ensures { OperatorBy site.entry.s.now site.entry.table.now site.entry.i site.entry.marks.now depths.old depths.new j e site.entry.own result }
{
    let Ok(w) = space(site.s, e, site.lines()) else {
        return false;
    };
    let bound = usize::from(tight(site.table[7 * site.i]));
    if !site.kid(depths, j, w, bound, Want::Expression, site.own) {
        return false;
    }
    site.ends(site.next(j), site.end(j), 0)
}
