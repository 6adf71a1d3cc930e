// A child of a node, in its place.
ghost use Rattle.std.specs.Prelude.{◌≡◌, cond, ◌+◌, ◌/◌, ◌%◌, ◌≤◌, eqb};
ghost use Rattle.index.specs.Mark.{mark_at};
ghost use Rattle.grammar.specs.Moves.{lone};
ghost use Rattle.grammar.specs.Said.{wanted};
ghost use Rattle.checker.specs.Child.{ChildBy};
ghost use Rattle.checker.specs.Lay.{SuitsAt, Seating, Meeting, met_from, MetAt, Passing, passed_from, PassedBy};

use crate::precedence::groups;
use crate::program::{Want, child, seat, sits};
use crate::row::Spot;
use crate::rows::wide;
use crate::site::Site;
use index::{find, insert};

// What a name and a part bind tighter than.
pub const TIGHT: usize = 8;

// Of a child that is right in its place: where it ends, the row of the next one, and how many keys are kept.
#[derive(Clone, Copy, Drop)]
pub struct Passed {
    pub end: usize,
    pub next: usize,
    pub keys: usize,
}

// Whether the row starts at a place, is not empty, binds tighter than a bound and is of a kind that is wanted.
pub fn suits(spot: Spot, at: usize, bound: usize, want: Want) -> bool
    ensures { SuitsAt spot.entry.table.now spot.entry.i at bound (wanted want) result }
{
    let start = spot.start();
    if start != at {
        return false;
    }
    if spot.end() <= start {
        return false;
    }
    let kind = spot.kind();
    let x = usize::from(seat(kind));
    if !groups(bound, x % 16, true) {
        return false;
    }
    sits(want, x)
}

// Of an item that starts at p, whose key has the mark m: nothing where its key is one of the n in the slots of `keys`, else how many are kept there. One that stands
// alone, and so may be compared, is kept too.
fn meet(
    s: &[u8],
    keys: &mut [u16],
    n: usize,
    p: u16,
    m: u16,
    want: Want,
    alone: bool,
) -> Option<usize>
    requires { Meeting s.now keys.old n × (wanted want ≡ 4 → m ≡ mark_at s.now p) × (wanted want ≡ 4 → alone ≡ lone s.now p) }
    ensures { MetAt s.now keys.old keys.new n p (wanted want) (met_from n result) }
{
    if want != Want::Item {
        return Some(n);
    }
    if !alone {
        return Some(n);
    }
    let a = wide(p);
    if find(s, keys, 0, n, a, m) {
        return None;
    }
    insert(s, keys, 0, n, a, m);
    Some(n + 1)
}

// A depth in one number.
pub fn packed(left: usize, lines: bool) -> u8
    requires { left ≤ 127 }
    ensures { result ≡ left + left + cond lines 1 0 }
{
    if lines {
        (left + left + 1) as u8
    } else {
        (left + left) as u8
    }
}

// The j-th row as a child of a class of the program, which is no item's.
pub fn child_at(site: Site, depths: &mut [u8], j: usize, at: usize, class: u8) -> bool
    requires { Seating site.table.now site.i depths.old j }
    ensures { ChildBy site.entry.table.now site.entry.i depths.old depths.new j class (site.entry.own / 2) (eqb (site.entry.own % 2) 1) at result }
{
    let y = child(class, site.left(), site.lines());
    let depth = packed(y.left, y.lines);
    site.kid(depths, j, at, y.bound, y.want, depth)
}

// The j-th row as a child of a class at a place, after n keys. Of an item there the key has the mark m, and `alone` says whether it stands alone. Where it is right its
// depth is put down.
pub fn pass(
    site: Site,
    depths: &mut [u8],
    keys: &mut [u16],
    j: usize,
    n: usize,
    class: u8,
    at: usize,
    m: u16,
    alone: bool,
) -> Option<Passed>
    requires { Passing site.s.now site.table.now site.i site.marks.now depths.old keys.old j n class (site.own / 2) at m alone }
    ensures { PassedBy site.entry.s.now site.entry.table.now site.entry.i site.entry.marks.now depths.old depths.new keys.old keys.new j n class (site.entry.own / 2) (eqb (site.entry.own % 2) 1) at (passed_from n result) }
{
    if j == site.i {
        return None;
    }
    let y = child(class, site.left(), site.lines());
    let row = Spot {
        table: site.table,
        i: j,
    };
    if !suits(row, at, y.bound, y.want) {
        return None;
    }
    let kept = meet(site.s, keys, n, site.table[7 * j + 2], m, y.want, alone)?;
    depths[j] = packed(y.left, y.lines);
    Some(Passed {
        end: site.end(j),
        next: site.next(j),
        keys: kept,
    })
}
