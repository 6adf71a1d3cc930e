// A call, gone through with no program: its names, namespaces first, and its arguments.
ghost use Rattle.grammar.specs.Layouts.{call_lay};
ghost use Rattle.checker.specs.Lay.{Direct};
ghost use Rattle.checker.specs.Rest.{RestBy};

use crate::list::listed;
use crate::pass::TIGHT;
use crate::site::Site;
use grammar::moves::space;
use grammar::program::Want;
use lexis::operator::colons_end;

// The names from the row `first` on, which is at p, and the arguments.
pub fn call(site: Site, depths: &mut [u8], first: usize, p: usize) -> bool
    requires { Direct site.table.now site.i site.marks.now depths.old first }
    ensures { RestBy site.entry.s.now site.entry.table.now site.entry.i site.entry.own site.entry.marks.now depths.old depths.new call_lay first p result }
{
    let lines = site.lines();
    let mut j = first;
    let mut at = p;
    loop {
        if !site.kid(depths, j, at, TIGHT, Want::Name, site.own) {
            return false;
        }
        let q = site.end(j);
        j = site.next(j);
        let Ok(w) = space(site.s, q, lines) else {
            return false;
        };
        at = w;
        let c = colons_end(site.s, at);
        if c == at {
            return listed(site, depths, j, at, 40, 41);
        }
        let Ok(v) = space(site.s, c, lines) else {
            return false;
        };
        at = v;
    }
}
