// Expressions between brackets, gone through with no program: parentheses, an index and an interpolation.
ghost use Rattle.std.specs.Prelude.{◌≡◌, cond, ◌+◌, ◌≤◌};
ghost use Rattle.grammar.specs.Layouts.{interpolation_lay};
ghost use Rattle.checker.specs.Lay.{Seating, Direct};
ghost use Rattle.checker.specs.Rest.{StepBy, RestBy, TailBy, inside_lay, enclosed_lay, stripped_lay};

use crate::site::Site;
use grammar::moves::space;
use grammar::program::Want;
use lexis::operator::{mark_end, pair_end};

// An expression behind any trivia from p on, a level deeper than a depth. It is put into its callers, as `layout` is: each call hands over a copy of the site.
#[inline(always)]
pub fn inside(site: Site, depths: &mut [u8], j: usize, p: usize) -> bool
    requires { Seating site.table.now site.i depths.old j × (2 ≤ site.own) }
    ensures { StepBy site.entry.s.now site.entry.table.now site.entry.i site.entry.own depths.old depths.new inside_lay j p result }
{
    let Ok(w) = space(site.s, p, true) else {
        return false;
    };
    site.kid(depths, j, w, 0, Want::Expression, site.inner())
}

// An opener at p, an expression and its closer.
pub fn enclosed(site: Site, depths: &mut [u8], j: usize, p: usize, opener: u8, closer: u8) -> bool
    requires { Direct site.table.now site.i site.marks.now depths.old j }
    ensures { RestBy site.entry.s.now site.entry.table.now site.entry.i site.entry.own site.entry.marks.now depths.old depths.new (enclosed_lay opener closer) j p result }
{
    if site.own < 2 {
        return false;
    }
    let b = mark_end(site.s, p, opener);
    if b == p {
        return false;
    }
    if !inside(site, depths, j, b) {
        return false;
    }
    let Ok(w) = space(site.s, site.end(j), true) else {
        return false;
    };
    let e = mark_end(site.s, w, closer);
    if e == w {
        return false;
    }
    site.ends(site.next(j), e, 0)
}

// The flag of an interpolation, by where a `~` stands.
fn flagged(left: bool, right: bool) -> usize
    ensures { result ≡ cond left 1 0 + cond right 2 0 }
{
    if left {
        return if right { 3 } else { 1 };
    }
    if right { 2 } else { 0 }
}

// Behind the expression of an interpolation, which ends at p: perhaps `~`, and `}`.
fn stripped(site: Site, j: usize, p: usize, left: bool) -> bool
    ensures { TailBy site.entry.s.now site.entry.table.now site.entry.i (stripped_lay (cond left 1 0)) j p result }
{
    let Ok(at) = space(site.s, p, true) else {
        return false;
    };
    let r = mark_end(site.s, at, 126);
    let e = mark_end(site.s, r, 125);
    if e == r {
        return false;
    }
    site.ends(j, e, flagged(left, r != at))
}

// An interpolation at p: `${`, perhaps `~`, an expression, perhaps `~`, and `}`.
pub fn interpolation(site: Site, depths: &mut [u8], j: usize, p: usize) -> bool
    requires { Direct site.table.now site.i site.marks.now depths.old j }
    ensures { RestBy site.entry.s.now site.entry.table.now site.entry.i site.entry.own site.entry.marks.now depths.old depths.new interpolation_lay j p result }
{
    if site.own < 2 {
        return false;
    }
    let b = pair_end(site.s, p, 36, 123);
    if b == p {
        return false;
    }
    let l = mark_end(site.s, b, 126);
    if !inside(site, depths, j, l) {
        return false;
    }
    stripped(site, site.next(j), site.end(j), l != b)
}
