// Moves over the bytes of a source: grammar's, and the six of the checker's own. In a node that is handed no keys, every key is a new one.
ghost use Rattle.std.specs.Prelude.{true, ◌≤◌, [], ◌∷◌, IfSome};
ghost use Rattle.grammar.specs.Moves.{then, skip, opening, stopping};
ghost use Rattle.grammar.specs.Said.{went_from};
ghost use Rattle.checker.specs.Program.{own_move};
ghost use Rattle.checker.specs.Leaf.{GoneAt};
ghost use Rattle.checker.specs.LeafMore.{Past, Comes, Goes, sign_from, SignBy, after_from, AfterBy, EndedTo};

use grammar::kinds::{Refusal, Refused};
use grammar::moves::{atom, space, walk};
use lexis::bytes::one_at;
use lexis::operator::{bang_end, equals_end, mark_end};
use lexis::trivia::{Stop, terminator};

// The place behind the sign of an item, and the flag that it gives: 0 for `=`, 1 for `:`.
#[derive(Clone, Copy, Drop)]
pub struct Signed {
    pub at: usize,
    pub flag: usize,
}

// What comes behind an item: the place of the next one, or the place past the `}`.
#[derive(Clone, Copy, Drop)]
pub enum Onward {
    Next(usize),
    Closed(usize),
}

// Past a token from p to e, which is p where it does not stand.
fn past(p: usize, e: usize) -> Result<usize, Refused>
    ensures { Past p e (went_from result) }
{
    if e == p {
        Err(Refusal::Unexpected.at(p))
    } else {
        Ok(e)
    }
}

// Past `!`, but not `!=`, which opens a level.
fn bang(s: &[u8], left: usize, p: usize) -> Result<usize, Refused>
    ensures { Comes (opening s.now left (33 ∷ []) ((33 ∷ 61 ∷ []) ∷ []) p) (went_from result) }
{
    if left == 0 {
        return Err(Refusal::Deep.at(p));
    }
    past(p, bang_end(s, p))
}

// Past the `=` behind a key and its same-line space.
fn equals(s: &[u8], p: usize) -> Result<usize, Refused>
    ensures { Goes s.now (own_move 2) p (went_from result) }
{
    let at = space(s, p, false)?;
    past(at, equals_end(s, at))
}

// The same for `:`.
fn colon(s: &[u8], p: usize) -> Result<usize, Refused>
    ensures { Goes s.now (own_move 3) p (went_from result) }
{
    let at = space(s, p, false)?;
    past(at, mark_end(s, at, 58))
}

// The sign of an item whose key ends at p.
pub fn sign(s: &[u8], p: usize) -> Option<Signed>
    ensures { SignBy s.now p (sign_from p result) × IfSome result (λ x. x.flag ≤ 1) }
{
    let Ok(at) = space(s, p, false) else {
        return None;
    };
    let e = equals_end(s, at);
    if e != at {
        return Some(Signed { at: e, flag: 0 });
    }
    let c = mark_end(s, at, 58);
    if c != at {
        return Some(Signed { at: c, flag: 1 });
    }
    None
}

// Past what ends an item at p, and any trivia behind it.
fn ended(s: &[u8], p: usize) -> Result<usize, Refused>
    ensures { Comes (then (stopping s.now p) (skip s.now true)) (went_from result) }
{
    match terminator(s, p) {
        Stop::Nothing => Err(Refusal::Unexpected.at(p)),
        Stop::Cut(at) => Err(Refusal::Unexpected.at(at)),
        Stop::End(at) => space(s, at, true),
    }
}

// Behind an item that ends at p, to the next item, which is no `}`.
pub fn more(s: &[u8], p: usize) -> Result<usize, Refused>
    ensures { Goes s.now (own_move 4) p (went_from result) }
{
    let at = space(s, p, false)?;
    let w = ended(s, at)?;
    if one_at(s, w, 125) {
        return Err(Refusal::Unexpected.at(w));
    }
    Ok(w)
}

// Behind the last item, which ends at p, past the `}`.
pub fn closing(s: &[u8], p: usize) -> Result<usize, Refused>
    ensures { Goes s.now (own_move 5) p (went_from result) }
{
    let at = space(s, p, false)?;
    if one_at(s, at, 125) {
        return Ok(at + 1);
    }
    let w = ended(s, at)?;
    past(w, mark_end(s, w, 125))
}

// Behind what ends an item at p, from q on.
fn over(s: &[u8], p: usize, q: usize) -> Option<Onward>
    requires { EndedTo s.now p q }
    ensures { AfterBy s.now p (after_from p result) }
{
    let Ok(w) = space(s, q, true) else {
        return None;
    };
    if one_at(s, w, 125) {
        return Some(Onward::Closed(w + 1));
    }
    Some(Onward::Next(w))
}

// The same behind an item that ends at p: most of them end where their line does.
pub fn after(s: &[u8], p: usize) -> Option<Onward>
    ensures { AfterBy s.now p (after_from p result) }
{
    if one_at(s, p, 10) {
        return over(s, p, p + 1);
    }
    let Ok(at) = space(s, p, false) else {
        return None;
    };
    if one_at(s, at, 125) {
        return Some(Onward::Closed(at + 1));
    }
    let Stop::End(q) = terminator(s, at) else {
        return None;
    };
    over(s, p, q)
}

// The move with the number a from p.
pub fn go(s: &[u8], left: usize, lines: bool, a: usize, p: usize) -> Result<usize, Refused>
    ensures { GoneAt s.now left lines a p (went_from result) }
{
    if a < 200 {
        return walk(s, left, lines, a, p);
    }
    match a {
        200 => atom(s, left, lines, 3, 45, p),
        201 => bang(s, left, p),
        202 => equals(s, p),
        203 => colon(s, p),
        204 => more(s, p),
        _ => closing(s, p),
    }
}
