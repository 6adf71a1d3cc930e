// The text numbers of a record, and its text.
ghost use Rattle.std.specs.Prelude.{◌≡◌};
ghost use Rattle.lexis.specs.Bytes.{stands};
ghost use Rattle.lexis.specs.String.{unpacked, mode_from};
ghost use Rattle.checker.specs.Rows.{row_at};
ghost use Rattle.checker.specs.Leaf.{used_from, Columns, PieceAt, StringAt};
ghost use Rattle.checker.specs.LeafMore.{used_by, Spells, Told};

use crate::row::{Row, Spot};
use lexis::bytes::{one_at, two_at};
use lexis::string::{Round, Run, Why, run_at, unit_at};

// The text numbers of a string or a piece, whose text without an escape is the b bytes of the source from a on.
fn own(flag: usize, from: usize, length: usize, a: usize, b: usize, u: usize) -> Option<usize>
    ensures { result ≡ used_by flag from length a b u }
{
    if flag != 1 {
        return (from == a && length == b).then_some(u);
    }
    let before = u.checked_sub(length)?;
    (from == before).then_some(before)
}

// How many bytes of text are used before the record, u being used up to it and with it; nothing where its text numbers are wrong.
pub fn columns(spot: Spot, u: usize) -> Option<usize>
    ensures { Columns (row_at spot.entry.table.now spot.entry.i) u (used_from result) }
{
    match spot.kind() {
        6 => {
            let r = spot.row();
            let n = r.end.saturating_sub(r.start);
            own(
                r.flag,
                r.from,
                r.length,
                r.start + 1,
                n.saturating_sub(2),
                u,
            )
        }
        9 => {
            let r = spot.row();
            let n = r.end.saturating_sub(r.start);
            own(r.flag, r.from, r.length, r.start, n, u)
        }
        _ => own(0, spot.from(), spot.length(), 0, 0, u),
    }
}

// Whether the bytes of a unit stand in a text from a place on.
fn holds(text: &[u8], at: usize, bytes: u32, count: u8) -> bool
    ensures { result ≡ stands (unpacked count bytes) text.now at }
{
    let mut left = bytes;
    for k in 0..count {
        if !one_at(text, at + usize::from(k), (left % 256) as u8) {
            return false;
        }
        left = left / 256;
    }
    true
}

// Whether the unescaped text of the run of literal text from p to `end` stands in a text from a place on.
fn spells(s: &[u8], p: usize, end: usize, plain: bool, text: &[u8], at: usize) -> bool
    ensures { Spells s.now plain p end text.now at result }
{
    let mut i = p;
    let mut j = at;
    while i < end {
        let Ok(u) = unit_at(s, i, plain) else {
            return false;
        };
        if !holds(text, j, u.bytes, u.count) {
            return false;
        }
        i += u.width;
        j += usize::from(u.count);
    }
    true
}

// Whether a row's flag says of the run of literal text from p whether it is escaped, and where it is, its text stands in the text buffer where the row says.
fn told(s: &[u8], text: &[u8], p: usize, plain: bool, t: Run, r: Row) -> bool
    ensures { Told s.now text.now p plain t r result }
{
    if !t.escaped {
        return r.flag == 0;
    }
    if r.flag != 1 {
        return false;
    }
    if r.length != t.length {
        return false;
    }
    spells(s, p, t.end, plain, text, r.from)
}

// Whether the record is a piece of the text round it, and its text stands where it says.
pub fn piece(s: &[u8], text: &[u8], spot: Spot, round: Round) -> bool
    ensures { PieceAt (mode_from s.now round) s.now text.now (row_at spot.entry.table.now spot.entry.i) result }
{
    let r = spot.row();
    if two_at(s, r.start, 36, 123) {
        return false;
    }
    let t = run_at(s, r.start, round);
    if r.end <= r.start {
        return false;
    }
    if r.end != t.end {
        return false;
    }
    told(s, text, r.start, round.is_quoted(), t, r)
}

// Whether the record, of a string, is the string at its start, and its text stands where it says.
pub fn string(s: &[u8], text: &[u8], spot: Spot) -> bool
    requires { (row_at spot.table.now spot.i).kind ≡ 6 }
    ensures { StringAt s.now text.now (row_at spot.entry.table.now spot.entry.i) result }
{
    let r = spot.row();
    if !one_at(s, r.start, 34) {
        return false;
    }
    let p = r.start + 1;
    let t = run_at(s, p, Round::Quoted);
    if t.why != Why::Quote {
        return false;
    }
    if r.end != t.end + 1 {
        return false;
    }
    told(s, text, p, true, t, r)
}
