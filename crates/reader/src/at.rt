// What the functions of the cycle hand to one another beside the source and the rooms.
ghost use Rattle.reader.specs.Said.{Deeper};

use grammar::kinds::{Refusal, Refused};

// Where a reading goes on: how many records, bytes of text and slots of keys stand before it, and the place in the source.
#[derive(Clone, Copy, Debug, PartialEq, Eq, Drop)]
pub struct At {
    pub records: usize,
    pub text: usize,
    pub keys: usize,
    pub place: usize,
}

// What a reading is under: the levels left, and whether a line may end.
#[derive(Clone, Copy, Debug, PartialEq, Eq, Drop)]
pub struct Level {
    pub left: usize,
    pub lines: bool,
}

// What a node is of: its kind, where it starts, and how many records of its left operand stand before its own.
#[derive(Clone, Copy, Debug, PartialEq, Eq, Drop)]
pub struct Node {
    pub kind: u16,
    pub start: usize,
    pub before: usize,
}

impl Level {
    // The level under this one, where a line may end as said; where none is left, what stands at the place is refused.
    pub fn deeper(self, place: usize, lines: bool) -> Result<Level, Refused>
        ensures { Deeper self place lines result }
    {
        if self.left == 0 {
            return Err(Refusal::Deep.at(place));
        }
        Ok(Level {
            left: self.left - 1,
            lines,
        })
    }
}
