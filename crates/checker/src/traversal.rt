// A traversal, gone through with no program: the parts behind its base.
ghost use Rattle.grammar.specs.Layouts.{traversal_lay};
ghost use Rattle.checker.specs.Lay.{Direct};
ghost use Rattle.checker.specs.Rest.{RestBy};

use crate::pass::TIGHT;
use crate::site::Site;
use grammar::moves::{is_part, space};
use grammar::program::Want;

// The parts from the row `first` on, behind a base that ends at p.
pub fn traversal(site: Site, depths: &mut [u8], first: usize, p: usize) -> bool
    requires { Direct site.table.now site.i site.marks.now depths.old first }
    ensures { RestBy site.entry.s.now site.entry.table.now site.entry.i site.entry.own site.entry.marks.now depths.old depths.new traversal_lay first p result }
{
    let lines = site.lines();
    let Ok(mut at) = space(site.s, p, lines) else {
        return false;
    };
    if !is_part(site.s, at) {
        return false;
    }
    let mut j = first;
    loop {
        if !site.kid(depths, j, at, TIGHT, Want::Part, site.own) {
            return false;
        }
        let q = site.end(j);
        j = site.next(j);
        let Ok(g) = space(site.s, q, lines) else {
            return site.ends(j, q, 0);
        };
        at = g;
        if !is_part(site.s, at) {
            return site.ends(j, q, 0);
        }
    }
}
