// The layout of a kind: with no program, where there is code for it.
ghost use Rattle.std.specs.Prelude.{◌/◌, ◌%◌, eqb};
ghost use Rattle.checker.specs.Lay.{Itemless, LaidBy};

use crate::bracket::{enclosed, interpolation};
use crate::call::call;
use crate::condition::condition;
use crate::conditional::conditional;
use crate::lay::lay;
use crate::list::listed;
use crate::list_for::list_for;
use crate::site::Site;
use crate::traversal::traversal;
use grammar::kinds::Kind;

// Whether the layout of the row's kind, which has no items, goes from p over the children from the j-th row on, and ends where the row does.
#[inline(always)]
pub fn layout(site: Site, depths: &mut [u8], j: usize, p: usize) -> bool
    requires { Itemless site.table.now site.i site.marks.now depths.old j }
    ensures { LaidBy site.entry.s.now site.entry.table.now site.entry.i site.entry.marks.now depths.old depths.new j p (site.entry.own / 2) (eqb (site.entry.own % 2) 1) result }
{
    let kind = site.table[7 * site.i];
    if kind == Kind::INDEX {
        return enclosed(site, depths, j, p, 91, 93);
    }
    if kind == Kind::INTERPOLATION {
        return interpolation(site, depths, j, p);
    }
    if kind == Kind::ARRAY {
        return listed(site, depths, j, p, 91, 93);
    }
    if kind == Kind::CALL {
        return call(site, depths, j, p);
    }
    if kind == Kind::CONDITION {
        return condition(site, depths, j, p);
    }
    if kind == Kind::LIST_FOR {
        return list_for(site, depths, j, p);
    }
    if kind == Kind::PARENTHESES {
        return enclosed(site, depths, j, p, 40, 41);
    }
    lay(site, depths, j, p)
}

// The same for a kind that grows from an operand, behind that.
pub fn growth(site: Site, depths: &mut [u8], j: usize, p: usize) -> bool
    requires { Itemless site.table.now site.i site.marks.now depths.old j }
    ensures { LaidBy site.entry.s.now site.entry.table.now site.entry.i site.entry.marks.now depths.old depths.new j p (site.entry.own / 2) (eqb (site.entry.own % 2) 1) result }
{
    let kind = site.table[7 * site.i];
    if kind == Kind::TRAVERSAL {
        return traversal(site, depths, j, p);
    }
    if kind == Kind::CONDITIONAL {
        return conditional(site, depths, j, p);
    }
    layout(site, depths, j, p)
}
