// 01's numbers: kinds of nodes, refusals and limits.
ghost use Rattle.std.specs.Prelude.{◌≡◌};
ghost use Rattle.grammar.specs.declared.kinds.Refusal.TheVariants as refusal;
ghost use Rattle.grammar.specs.Kinds.{tight_of, number};

use lexis::trivia::Unclosed;

// A kind of node.
#[derive(Clone, Copy, Drop)]
pub struct Kind(pub u16);

impl Kind {
    pub const NONE: u16 = 0;

    pub const NULL: u16 = 1;

    pub const TRUE: u16 = 2;

    pub const FALSE: u16 = 3;

    pub const NUMBER: u16 = 4;

    pub const VARIABLE: u16 = 5;

    pub const STRING: u16 = 6;

    pub const TEMPLATE: u16 = 7;

    pub const HEREDOC: u16 = 8;

    pub const PIECE: u16 = 9;

    pub const INTERPOLATION: u16 = 10;

    pub const ARRAY: u16 = 11;

    pub const OBJECT: u16 = 12;

    pub const ITEM: u16 = 13;

    pub const KEY: u16 = 14;

    pub const PARENTHESES: u16 = 15;

    pub const CALL: u16 = 16;

    pub const NAME: u16 = 17;

    pub const LIST_FOR: u16 = 18;

    pub const OBJECT_FOR: u16 = 19;

    pub const CONDITION: u16 = 20;

    pub const CONDITIONAL: u16 = 21;

    pub const NEGATION: u16 = 22;

    pub const NOT: u16 = 23;

    pub const MULTIPLY: u16 = 24;

    pub const DIVIDE: u16 = 25;

    pub const MODULO: u16 = 26;

    pub const ADD: u16 = 27;

    pub const SUBTRACT: u16 = 28;

    pub const GREATER: u16 = 29;

    pub const GREATER_EQUAL: u16 = 30;

    pub const LESS: u16 = 31;

    pub const LESS_EQUAL: u16 = 32;

    pub const EQUAL: u16 = 33;

    pub const NOT_EQUAL: u16 = 34;

    pub const AND: u16 = 35;

    pub const OR: u16 = 36;

    pub const TRAVERSAL: u16 = 37;

    pub const ATTRIBUTE: u16 = 38;

    pub const LEGACY_INDEX: u16 = 39;

    pub const ATTRIBUTE_SPLAT: u16 = 40;

    pub const FULL_SPLAT: u16 = 41;

    pub const INDEX: u16 = 42;
}

// A refusal.
#[derive(Clone, Copy, Debug, PartialEq, Eq, Drop)]
pub enum Refusal {
    Long,
    Utf8,
    Foreign,
    Unexpected,
    Escape,
    Unclosed,
    Duplicate,
    Deep,
    Directive,
    Index,
    Slots,
    Text,
}

impl Refusal {
    // The refusal of what stands at a place.
    pub fn at(self, place: usize) -> Refused
        ensures { result ≡ record { kind = self; at = place } }
    {
        Refused {
            kind: self,
            at: place,
        }
    }
}

impl From<Refusal> for u8 {
    ghost from_gives = { λ k n. n ≡ number k };

    fn from(k: Refusal) -> u8 {
        match k {
            Refusal::Long => 1,
            Refusal::Utf8 => 2,
            Refusal::Foreign => 3,
            Refusal::Unexpected => 4,
            Refusal::Escape => 5,
            Refusal::Unclosed => 6,
            Refusal::Duplicate => 7,
            Refusal::Deep => 8,
            Refusal::Directive => 9,
            Refusal::Index => 10,
            Refusal::Slots => 11,
            Refusal::Text => 12,
        }
    }
}

// A refusal and its place.
#[derive(Clone, Copy, Debug, PartialEq, Eq, Drop)]
pub struct Refused {
    pub kind: Refusal,
    pub at: usize,
}

impl From<Unclosed> for Refused {
    ghost from_gives = { λ u r. r ≡ record { kind = refusal.Unclosed; at = u.at } };

    fn from(u: Unclosed) -> Refused {
        Refusal::Unclosed.at(u.at)
    }
}

// A limit of 01.
#[derive(Clone, Copy, Drop)]
pub struct Limit(pub usize);

impl Limit {
    pub const SOURCE: usize = 65535;

    pub const LEVELS: usize = 64;

    pub const RECORD: usize = 7;
}

// How tightly a kind binds: the conditional 1, the operators by level 2 to 7, the traversal 8, all else 9; 0 for what is no kind. Long, as a line for each kind is a table that stays.
pub fn tight(kind: u16) -> u8
    ensures { result ≡ tight_of kind }
{
    match kind {
        0 => 0,
        1 => 9,
        2 => 9,
        3 => 9,
        4 => 9,
        5 => 9,
        6 => 9,
        7 => 9,
        8 => 9,
        9 => 9,
        10 => 9,
        11 => 9,
        12 => 9,
        13 => 9,
        14 => 9,
        15 => 9,
        16 => 9,
        17 => 9,
        18 => 9,
        19 => 9,
        20 => 9,
        21 => 1,
        22 => 9,
        23 => 9,
        24 => 7,
        25 => 7,
        26 => 7,
        27 => 6,
        28 => 6,
        29 => 5,
        30 => 5,
        31 => 5,
        32 => 5,
        33 => 4,
        34 => 4,
        35 => 3,
        36 => 2,
        37 => 8,
        38 => 9,
        39 => 9,
        40 => 9,
        41 => 9,
        42 => 9,
        _ => 0,
    }
}
