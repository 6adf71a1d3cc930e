// A row with no children that is told by one look: a word or a number alone, an attribute or a name.
ghost use Rattle.std.specs.Prelude.{◌≡◌, true};
ghost use Rattle.checker.specs.Leaf.{read_as};
ghost use Rattle.checker.specs.Node.{Token, TokenAt, look_from, SingleBy};
ghost use Rattle.checker.specs.Told.{Telling};

use crate::bare::{attribute, name};
use crate::row::Spot;
use crate::told::keyed;
use grammar::kinds::Kind;
use grammar::picks::head_at;

// Whether a kind may be that of a word or a number; a bare key is read as a variable.
fn is_token(kind: u16) -> bool
    ensures { result ≡ true → Token kind }
{
    if kind == Kind::KEY {
        return true;
    }
    kind <= Kind::VARIABLE
}

fn read_as(kind: u16) -> u16
    ensures { result ≡ read_as kind }
{
    if kind == Kind::KEY {
        Kind::VARIABLE
    } else {
        kind
    }
}

// Whether the row is read as a kind, ends at a place and has the flag 0.
fn is_alone(spot: Spot, kind: u16, end: usize) -> bool
    ensures { TokenAt spot.entry.table.now spot.entry.i kind end result }
{
    if read_as(spot.kind()) != kind {
        return false;
    }
    if spot.end() != end {
        return false;
    }
    spot.flag() == 0
}

// The rule at the row, which has no children, where one look tells it: a number with a sign is left to others.
pub fn single(s: &[u8], spot: Spot, told: &[u16], lines: bool) -> Option<bool>
    requires { Telling s.now spot.table.now spot.i told.now }
    ensures { SingleBy s.now spot.entry.table.now spot.entry.i lines (look_from result) }
{
    let kind = spot.kind();
    let start = spot.start();
    if kind == Kind::ATTRIBUTE {
        return Some(attribute(s, spot, spot.i, start));
    }
    if kind == Kind::NAME {
        return Some(name(s, spot, spot.i, start));
    }
    if keyed(s, spot, told, lines) {
        return Some(true);
    }
    if !is_token(kind) {
        return None;
    }
    let h = head_at(s, start, lines);
    if h.end == start {
        return None;
    }
    Some(is_alone(spot, h.kind, h.end))
}
