// A row that is gone through, with what is only read of it.
ghost use Rattle.std.specs.Prelude.{◌≡◌, ◌+◌, ◌-◌, ◌*◌, ◌/◌, ◌%◌, ◌≤◌, ◌<◌, eqb, get_or, length};
ghost use Rattle.grammar.specs.Said.{wanted};
ghost use Rattle.checker.specs.Rows.{row_at};
ghost use Rattle.checker.specs.Lay.{EndsAt, Seating, KidBy};

use crate::lay::ends;
use crate::pass::suits;
use crate::row::Spot;
use crate::rows::wide;
use grammar::program::Want;

// The source, the table, the row's number, the links of its children, and its depth.
#[derive(Clone, Copy, Drop)]
pub struct Site<'a> {
    pub s: &'a [u8],
    pub table: &'a [u16],
    pub i: usize,
    pub marks: &'a [u16],
    pub own: u8,
    ghost within: { 7 * i + 7 ≤ length table.now },
}

impl<'a> Site<'a> {
    // Where the row starts.
    pub fn start(self) -> usize
        ensures { (result ≡ (row_at self.entry.table.now self.entry.i).start) × (result ≤ 65535) }
    {
        wide(self.table[7 * self.i + 2])
    }

    // Where the j-th row ends.
    pub fn end(self, j: usize) -> usize
        requires { 7 * j + 7 ≤ length self.table.now }
        ensures { (result ≡ (row_at self.entry.table.now j).end) × (result ≤ 65535) }
    {
        wide(self.table[7 * j + 3])
    }

    // The row of the child behind the j-th.
    pub fn next(self, j: usize) -> usize
        requires { j < length self.marks.now }
        ensures { result ≡ get_or self.entry.marks.now j 0 }
    {
        wide(self.marks[j])
    }

    // The levels left.
    pub fn left(self) -> usize
        ensures { (result ≡ self.entry.own / 2) × (result ≤ 127) }
    {
        usize::from(self.own / 2)
    }

    // Whether a line end may stand.
    pub fn lines(self) -> bool
        ensures { result ≡ eqb (self.entry.own % 2) 1 }
    {
        self.own % 2 == 1
    }

    // A depth of one level less, where a line end may stand.
    pub fn inner(self) -> u8
        requires { 2 ≤ self.own }
        ensures { result ≡ self.entry.own / 2 * 2 - 1 }
    {
        self.own / 2 * 2 - 1
    }

    // Whether the row ends at q with a flag, and no child of it is left.
    pub fn ends(self, j: usize, q: usize, flag: usize) -> bool
        ensures { EndsAt self.entry.table.now self.entry.i j q flag result }
    {
        let spot = Spot {
            table: self.table,
            i: self.i,
        };
        ends(spot, j, q, flag)
    }

    // Whether the j-th row suits its place as a child that is no item. Then its depth is put down.
    pub fn kid(
        self,
        depths: &mut [u8],
        j: usize,
        at: usize,
        bound: usize,
        want: Want,
        depth: u8,
    ) -> bool
        requires { Seating self.table.now self.i depths.old j }
        ensures { KidBy self.entry.table.now self.entry.i depths.old depths.new j at bound (wanted want) depth result }
    {
        if j == self.i {
            return false;
        }
        let row = Spot {
            table: self.table,
            i: j,
        };
        if !suits(row, at, bound, want) {
            return false;
        }
        depths[j] = depth;
        true
    }
}
