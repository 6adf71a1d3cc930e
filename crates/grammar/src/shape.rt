// What the program says: an instruction, and what a child is under.

// An instruction: its operation; a flag, or where a move's atoms begin; the class of a child; where to go on otherwise.
#[derive(Clone, Copy, Drop)]
pub struct Instr {
    pub op: u8,
    pub arg: usize,
    pub class: u8,
    pub next: usize,
}

impl Instr {
    pub const FIN: u8 = 1;

    pub const MOVE: u8 = 2;

    pub const KID: u8 = 3;

    pub const FORK: u8 = 4;

    pub const REP: u8 = 5;
}

// What is wanted where a child stands; the program asks for no item and no key.
#[derive(Clone, Copy, Debug, PartialEq, Eq, Drop)]
pub enum Want {
    Expression,
    Name,
    Part,
    Condition,
    Item,
    Key,
}

// What a child is under: the levels left, whether a line end may stand there, the operators that are taken into it, and what is wanted.
#[derive(Clone, Copy, Debug, PartialEq, Eq, Drop)]
pub struct Child {
    pub left: usize,
    pub lines: bool,
    pub bound: usize,
    pub want: Want,
}
