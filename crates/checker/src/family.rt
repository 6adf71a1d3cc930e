// The children of a node, found by their counts from the right.
ghost use Rattle.std.specs.Prelude.{◌+◌, ◌*◌, ◌≤◌, length, IfSome};
ghost use Rattle.checker.specs.Family.{Rowed, family_from, Family};

use crate::rows::wide;

// Finds the children of the i-th row and leaves in `marks`, for each, the row of the next; i behind the last. The answer is the row of the first, i where there is none;
// nothing where the counts are no family's.
pub fn family(table: &[u16], i: usize, marks: &mut [u16]) -> Option<usize>
    requires { Rowed table.now i marks.old }
    ensures { Family table.now i marks.old marks.new (family_from i result) × IfSome result (λ j. j ≤ i) }
{
    let count = wide(table[7 * i + 4]);
    if count == 0 {
        return None;
    }
    if i + 1 < count {
        return None;
    }
    let mut left = count - 1;
    let mut hi = i;
    let mut next = i;
    while left != 0 {
        let c = wide(table[7 * hi - 3]);
        if c == 0 {
            return None;
        }
        if left < c {
            return None;
        }
        marks[hi - 1] = next as u16;
        next = hi - 1;
        hi = hi - c;
        left = left - c;
    }
    Some(next)
}
