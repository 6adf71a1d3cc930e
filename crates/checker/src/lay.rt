// A layout, laid over the children of a node by its program.
ghost use Rattle.std.specs.Prelude.{◌/◌, ◌%◌, eqb};
ghost use Rattle.checker.specs.Lay.{EndsAt, Itemless, LaidBy};

use crate::moves::go;
use crate::pass::child_at;
use crate::program::{Instr, begin, instr};
use crate::row::Spot;
use crate::site::Site;

// Whether the row ends at q with a flag, and no child of it is left.
pub fn ends(spot: Spot, j: usize, q: usize, flag: usize) -> bool
    ensures { EndsAt spot.entry.table.now spot.entry.i j q flag result }
{
    if j != spot.i {
        return false;
    }
    if q != spot.end() {
        return false;
    }
    flag == spot.flag()
}

// Whether the layout of the row's kind, which has no items, goes from p over the children from the row `first` on, and ends where the row does.
pub fn lay(site: Site, depths: &mut [u8], first: usize, p: usize) -> bool
    requires { Itemless site.table.now site.i site.marks.now depths.old first }
    ensures { LaidBy site.entry.s.now site.entry.table.now site.entry.i site.entry.marks.now depths.old depths.new first p (site.entry.own / 2) (eqb (site.entry.own % 2) 1) result }
{
    let left = site.left();
    let lines = site.lines();
    let mut pc = begin(site.table[7 * site.i]);
    let mut q = p;
    let mut j = first;
    loop {
        let x = instr(pc);
        if x.op == Instr::FIN {
            return site.ends(j, q, x.arg);
        }
        if x.op == Instr::KID {
            if !child_at(site, depths, j, q, x.class) {
                return false;
            }
            q = site.end(j);
            j = site.next(j);
            pc = pc + 1;
            continue;
        }
        let Ok(w) = go(site.s, left, lines, x.arg, q) else {
            if x.op == Instr::MOVE {
                return false;
            }
            pc = x.next;
            continue;
        };
        if x.op == Instr::REP {
            if !child_at(site, depths, j, w, x.class) {
                return false;
            }
            q = site.end(j);
            j = site.next(j);
            continue;
        }
        q = w;
        pc = pc + 1;
    }
}
