// The layouts as a program: grammar's, and behind it the instructions of the kinds that it lacks.
ghost use Rattle.std.specs.Prelude.{◌≡◌};
ghost use Rattle.engine.specs.Base.{has};
ghost use Rattle.grammar.specs.Said.{wanted, child_from};
ghost use Rattle.checker.specs.Program.{begin_in};
ghost use Rattle.checker.specs.Leaf.{InstrAt, kinds_by, ChildAt};
ghost use Rattle.checker.specs.LeafMore.{word_in, seat_of, sits_as};

use grammar::kinds::Kind;
use grammar::program;
pub use grammar::program::{Child, Instr, Want};

// Where the program of a kind starts; 0 for the kinds that have none.
pub fn begin(kind: u16) -> usize
    ensures { result ≡ begin_in kind }
{
    match kind {
        12 => 245,
        13 => 236,
        14 => 12,
        22 => 228,
        23 => 232,
        _ => program::begin(kind),
    }
}

// The k-th instruction of its own: operation, argument, class and where to go on, a byte each, the first lowest; 0 past the last.
fn word(k: usize) -> u32
    ensures { result ≡ word_in k }
{
    match k {
        0 => 51202,
        1 => 1794,
        2 => 393219,
        3 => 1,
        4 => 51458,
        5 => 1794,
        6 => 393219,
        7 => 1,
        8 => 131075,
        9 => 4043360772,
        10 => 1794,
        11 => 196611,
        12 => 1,
        13 => 51970,
        14 => 1794,
        15 => 196611,
        16 => 257,
        17 => 17410,
        18 => 4160768260,
        19 => 1,
        20 => 4610,
        21 => 458755,
        22 => 4211592197,
        23 => 52482,
        24 => 1,
        _ => 0,
    }
}

// The instruction at pc; all 0 past the program's end.
pub fn instr(pc: usize) -> Instr
    ensures { InstrAt pc result }
{
    if pc < 228 {
        return program::instr(pc);
    }
    program::unpacked(word(pc - 228))
}

// What a child of a class is under, in a node with so many levels left, where a line end may stand or not.
pub fn child(class: u8, left: usize, lines: bool) -> Child
    ensures { ChildAt class left lines (child_from result) }
{
    match class {
        2 => Child {
            left,
            lines: false,
            bound: 0,
            want: Want::Key,
        },
        3 => Child {
            left,
            lines,
            bound: 0,
            want: Want::Expression,
        },
        6 => Child {
            left: left.saturating_sub(1),
            lines,
            bound: 7,
            want: Want::Expression,
        },
        7 => Child {
            left: left.saturating_sub(1),
            lines: false,
            bound: 8,
            want: Want::Item,
        },
        _ => program::child(class, left, lines),
    }
}

// How tightly a kind binds and, in the bits behind that, where it may stand: one look for both. Long, as a line for each kind is a table that stays.
pub fn seat(kind: u16) -> u16
    ensures { result ≡ seat_of kind }
{
    match kind {
        0 => 0,
        1 => 537,
        2 => 537,
        3 => 537,
        4 => 537,
        5 => 25,
        6 => 537,
        7 => 537,
        8 => 537,
        9 => 9,
        10 => 9,
        11 => 537,
        12 => 537,
        13 => 265,
        14 => 521,
        15 => 537,
        16 => 537,
        17 => 41,
        18 => 537,
        19 => 537,
        20 => 137,
        21 => 529,
        22 => 537,
        23 => 537,
        24 => 535,
        25 => 535,
        26 => 535,
        27 => 534,
        28 => 534,
        29 => 533,
        30 => 533,
        31 => 533,
        32 => 533,
        33 => 532,
        34 => 532,
        35 => 531,
        36 => 530,
        37 => 536,
        38 => 73,
        39 => 73,
        40 => 73,
        41 => 73,
        42 => 73,
        _ => 0,
    }
}

// Whether what has a seat may stand where something is wanted.
pub fn sits(want: Want, seat: usize) -> bool
    ensures { result ≡ sits_as (wanted want) seat }
{
    match want {
        Want::Expression => seat / 16 % 2 == 1,
        Want::Name => seat / 32 % 2 == 1,
        Want::Part => seat / 64 % 2 == 1,
        Want::Condition => seat / 128 % 2 == 1,
        Want::Item => seat / 256 % 2 == 1,
        Want::Key => seat / 512 % 2 == 1,
    }
}

// Whether a kind may stand where something is wanted.
pub fn fits(want: Want, kind: u16) -> bool
    ensures { result ≡ has (kinds_by (wanted want)) kind }
{
    sits(want, usize::from(seat(kind)))
}
