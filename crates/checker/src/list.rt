// Arrays and the arguments of calls, gone through with no program: elements with commas between them, up to a closer.
ghost use Rattle.std.specs.Prelude.{[], ◌∷◌, ◌≤◌};
ghost use Rattle.engine.specs.Layout.{move};
ghost use Rattle.grammar.specs.Layouts.{opening};
ghost use Rattle.checker.specs.Lay.{Direct};
ghost use Rattle.checker.specs.Rest.{RestBy};
ghost use Rattle.checker.specs.Elements.{Closer, After, LastBy, elements_lay, listed_lay};

use crate::site::Site;
use grammar::moves::space;
use grammar::program::Want;
use lexis::bytes::byte_at;
use lexis::operator::{dots_end, mark_end};

// The closer of a call, before which `...` may stand.
const CALL: u8 = 41;

// Behind the last element and its trivia, where no comma stands: the closer.
fn last(site: Site, j: usize, at: usize, closer: u8) -> bool
    requires { Closer closer × After site.s.now at }
    ensures { LastBy site.entry.s.now site.entry.table.now site.entry.i closer j at result }
{
    let c = mark_end(site.s, at, closer);
    if c != at {
        return site.ends(j, c, 0);
    }
    if closer != CALL {
        return false;
    }
    let d = dots_end(site.s, at);
    if d == at {
        return false;
    }
    let Ok(q) = space(site.s, d, true) else {
        return false;
    };
    let e = mark_end(site.s, q, closer);
    if e == q {
        return false;
    }
    site.ends(j, e, 1)
}

// The elements from the row `first` on, which is at p, and the closer behind them.
fn elements(site: Site, depths: &mut [u8], first: usize, p: usize, closer: u8) -> bool
    requires { Direct site.table.now site.i site.marks.now depths.old first × (2 ≤ site.own) × Closer closer }
    ensures { RestBy site.entry.s.now site.entry.table.now site.entry.i site.entry.own site.entry.marks.now depths.old depths.new (elements_lay closer) first p result }
{
    let depth = site.inner();
    let mut j = first;
    let mut at = p;
    loop {
        if !site.kid(depths, j, at, 0, Want::Expression, depth) {
            return false;
        }
        let q = site.end(j);
        j = site.next(j);
        let Ok(w) = space(site.s, q, true) else {
            return false;
        };
        at = w;
        if byte_at(site.s, at) != 44 {
            return last(site, j, at, closer);
        }
        let Ok(v) = space(site.s, at + 1, true) else {
            return false;
        };
        at = v;
        let e = mark_end(site.s, at, closer);
        if e != at {
            return site.ends(j, e, 0);
        }
    }
}

// An opener at p, elements and a closer, or no elements.
pub fn listed(site: Site, depths: &mut [u8], first: usize, p: usize, opener: u8, closer: u8) -> bool
    requires { Direct site.table.now site.i site.marks.now depths.old first × Closer closer }
    ensures { RestBy site.entry.s.now site.entry.table.now site.entry.i site.entry.own site.entry.marks.now depths.old depths.new (move (opening (opener ∷ [])) (listed_lay closer)) first p result }
{
    if site.own < 2 {
        return false;
    }
    let b = mark_end(site.s, p, opener);
    if b == p {
        return false;
    }
    let Ok(at) = space(site.s, b, true) else {
        return false;
    };
    let e = mark_end(site.s, at, closer);
    if e != at {
        return site.ends(first, e, 0);
    }
    elements(site, depths, first, at, closer)
}
