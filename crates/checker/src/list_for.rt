// A list for, gone through with no program: one or two names, a collection, a value, and perhaps a condition.
ghost use Rattle.std.specs.Prelude.{◌≤◌};
ghost use Rattle.grammar.specs.Layouts.{filter_lay, list_for_lay};
ghost use Rattle.checker.specs.Lay.{Seating, Direct};
ghost use Rattle.checker.specs.Rest.{StepBy, RestBy};
ghost use Rattle.checker.specs.ListFor.{ShutBy, named_lay, intro_lay, collection_lay, value_lay, ranged_lay};

use crate::bracket::inside;
use crate::pass::TIGHT;
use crate::site::Site;
use grammar::moves::space;
use grammar::program::Want;
use lexis::operator::mark_end;
use lexis::word::{for_end, if_end, in_end};

// A name, behind any trivia from p on.
fn named(site: Site, depths: &mut [u8], j: usize, p: usize) -> bool
    requires { Seating site.table.now site.i depths.old j × (2 ≤ site.own) }
    ensures { StepBy site.entry.s.now site.entry.table.now site.entry.i site.entry.own depths.old depths.new named_lay j p result }
{
    let Ok(w) = space(site.s, p, true) else {
        return false;
    };
    site.kid(depths, j, w, TIGHT, Want::Name, site.own)
}

// `for`, and the first name.
fn intro(site: Site, depths: &mut [u8], j: usize, p: usize) -> bool
    requires { Seating site.table.now site.i depths.old j × (2 ≤ site.own) }
    ensures { StepBy site.entry.s.now site.entry.table.now site.entry.i site.entry.own depths.old depths.new intro_lay j p result }
{
    let Ok(at) = space(site.s, p, true) else {
        return false;
    };
    let e = for_end(site.s, at);
    if e == at {
        return false;
    }
    named(site, depths, j, e)
}

// `in`, and the collection.
fn collection(site: Site, depths: &mut [u8], j: usize, p: usize) -> bool
    requires { Seating site.table.now site.i depths.old j × (2 ≤ site.own) }
    ensures { StepBy site.entry.s.now site.entry.table.now site.entry.i site.entry.own depths.old depths.new collection_lay j p result }
{
    let Ok(at) = space(site.s, p, true) else {
        return false;
    };
    let e = in_end(site.s, at);
    if e == at {
        return false;
    }
    let Ok(v) = space(site.s, e, true) else {
        return false;
    };
    site.kid(depths, j, v, 0, Want::Expression, site.own / 2 * 2 - 2)
}

// `:`, and the value.
fn value(site: Site, depths: &mut [u8], j: usize, p: usize) -> bool
    requires { Seating site.table.now site.i depths.old j × (2 ≤ site.own) }
    ensures { StepBy site.entry.s.now site.entry.table.now site.entry.i site.entry.own depths.old depths.new value_lay j p result }
{
    let Ok(at) = space(site.s, p, true) else {
        return false;
    };
    let e = mark_end(site.s, at, 58);
    if e == at {
        return false;
    }
    inside(site, depths, j, e)
}

// The closer at a place, wherever its trivia starts.
fn shut(site: Site, j: usize, at: usize) -> bool
    ensures { ShutBy site.entry.s.now site.entry.table.now site.entry.i 93 j at result }
{
    let e = mark_end(site.s, at, 93);
    if e == at {
        return false;
    }
    site.ends(j, e, 0)
}

// Behind the value: perhaps a condition, and the closer.
fn filtered(site: Site, depths: &mut [u8], j: usize, p: usize) -> bool
    requires { Direct site.table.now site.i site.marks.now depths.old j × (2 ≤ site.own) }
    ensures { RestBy site.entry.s.now site.entry.table.now site.entry.i site.entry.own site.entry.marks.now depths.old depths.new (filter_lay 93 0) j p result }
{
    let Ok(at) = space(site.s, p, true) else {
        return false;
    };
    if if_end(site.s, at) == at {
        return shut(site, j, at);
    }
    if !site.kid(depths, j, at, TIGHT, Want::Condition, site.inner()) {
        return false;
    }
    let q = site.end(j);
    let k = site.next(j);
    let Ok(v) = space(site.s, q, true) else {
        return false;
    };
    shut(site, k, v)
}

// Behind the names: the collection, the value, and what follows it.
fn ranged(site: Site, depths: &mut [u8], j: usize, p: usize) -> bool
    requires { Direct site.table.now site.i site.marks.now depths.old j × (2 ≤ site.own) }
    ensures { RestBy site.entry.s.now site.entry.table.now site.entry.i site.entry.own site.entry.marks.now depths.old depths.new ranged_lay j p result }
{
    if !collection(site, depths, j, p) {
        return false;
    }
    let q = site.end(j);
    let k = site.next(j);
    if !value(site, depths, k, q) {
        return false;
    }
    let e = site.end(k);
    filtered(site, depths, site.next(k), e)
}

// A list for at p.
pub fn list_for(site: Site, depths: &mut [u8], j: usize, p: usize) -> bool
    requires { Direct site.table.now site.i site.marks.now depths.old j }
    ensures { RestBy site.entry.s.now site.entry.table.now site.entry.i site.entry.own site.entry.marks.now depths.old depths.new list_for_lay j p result }
{
    if site.own < 2 {
        return false;
    }
    let b = mark_end(site.s, p, 91);
    if b == p {
        return false;
    }
    if !intro(site, depths, j, b) {
        return false;
    }
    let q = site.end(j);
    let k = site.next(j);
    let Ok(at) = space(site.s, q, true) else {
        return false;
    };
    let c = mark_end(site.s, at, 44);
    if c == at {
        return ranged(site, depths, k, q);
    }
    if !named(site, depths, k, c) {
        return false;
    }
    let e = site.end(k);
    ranged(site, depths, site.next(k), e)
}
