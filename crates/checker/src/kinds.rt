// What is asked of a kind: what may follow it, whether it grows from an operand, whether the bytes at a place call for it.
ghost use Rattle.std.specs.Prelude.{◌≡◌};
ghost use Rattle.grammar.specs.Kinds.{hold_of};
ghost use Rattle.checker.specs.Leaf.{is_grown, FirstAt};

use grammar::kinds::Kind;
use grammar::picks::{part_at, term_at};
use lexis::bytes::two_at;

// The tightest operator that may follow a kind: none after an item, a condition or a conditional, no traversal after a unary operator; 0 for what is no kind.
// Long, as a line for each kind is a table that stays.
pub fn hold(kind: u16) -> u8
    ensures { result ≡ hold_of kind }
{
    match kind {
        0 => 0,
        1 => 9,
        2 => 9,
        3 => 9,
        4 => 9,
        5 => 9,
        6 => 9,
        7 => 9,
        8 => 9,
        9 => 9,
        10 => 9,
        11 => 9,
        12 => 9,
        13 => 0,
        14 => 9,
        15 => 9,
        16 => 9,
        17 => 9,
        18 => 9,
        19 => 9,
        20 => 0,
        21 => 0,
        22 => 7,
        23 => 7,
        24 => 7,
        25 => 7,
        26 => 7,
        27 => 6,
        28 => 6,
        29 => 5,
        30 => 5,
        31 => 5,
        32 => 5,
        33 => 4,
        34 => 4,
        35 => 3,
        36 => 2,
        37 => 8,
        38 => 9,
        39 => 9,
        40 => 9,
        41 => 9,
        42 => 9,
        _ => 0,
    }
}

// Whether a kind grows from an operand: the conditional, an operator or a traversal.
pub fn is_grown(kind: u16) -> bool
    ensures { result ≡ is_grown kind }
{
    kind == Kind::CONDITIONAL || (Kind::MULTIPLY <= kind && kind <= Kind::TRAVERSAL)
}

// Whether the bytes at p call for a kind that does not grow from an operand; a bare key is read as a variable.
pub fn first_at(s: &[u8], kind: u16, p: usize, lines: bool) -> bool
    ensures { FirstAt s.now kind p lines result }
{
    match kind {
        0 => false,
        10 => two_at(s, p, 36, 123),
        13 | 17 | 20 => true,
        14 => term_at(s, p, lines) == Some(Kind::VARIABLE),
        38..=42 => part_at(s, p) == Some(kind),
        _ => term_at(s, p, lines) == Some(kind),
    }
}
