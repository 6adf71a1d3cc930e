// Whether the key of an item stands alone, with what was found of comments behind earlier keys: so no comment is passed once for each of many keys in it.
ghost use Rattle.std.specs.Prelude.{◌≡◌, [], ◌∷◌, true, ◌+◌, ◌≤◌, length};
ghost use Rattle.lexis.specs.Bytes.{stands};
ghost use Rattle.checker.specs.Lone.{Known, SpacesTo, CloserAt, Covered, OneOf, Behind};

use grammar::picks::signs;
use lexis::bytes::{byte_at, is_space, one_at, two_at};

// Of each `/*` whose text starts from `from` to `to`, but not with `/`: whether `=` or `:` stands behind the same-line space that it starts.
#[derive(Clone, Copy, Drop)]
pub struct Memo {
    pub from: usize,
    pub to: usize,
    pub yes: bool,
}

// Whether `=` or `:` stands behind some space, and what is known then.
#[derive(Clone, Copy, Drop)]
pub struct Lone {
    pub yes: bool,
    pub memo: Memo,
}

// Past the spaces from p on.
fn spaces(s: &[u8], p: usize) -> usize
    ensures { SpacesTo s.now p result }
{
    for i in p..s.len() {
        if !is_space(byte_at(s, i)) {
            return i;
        }
    }
    p.max(s.len())
}

// The first `*/` from p on; the source's length where there is none.
fn closer(s: &[u8], p: usize) -> usize
    requires { p ≤ length s.now }
    ensures { CloserAt s.now p result }
{
    for i in p..s.len() {
        if two_at(s, i, b'*', b'/') {
            return i;
        }
    }
    s.len()
}

// Whether what is known tells of the `/*` at c.
fn covers(s: &[u8], c: usize, memo: Memo) -> bool
    requires { c + 2 ≤ length s.now }
    ensures { Covered s.now c memo result }
{
    if c + 2 < memo.from {
        return false;
    }
    if memo.to < c + 2 {
        return false;
    }
    !one_at(s, c + 2, b'/')
}

// The one that tells of more to come.
fn later(old: Memo, new: Memo) -> Memo
    ensures { OneOf old new result }
{
    if new.to <= old.to { old } else { new }
}

// Behind the same-line space that starts with the `/*` at c.
fn behind(s: &[u8], c: usize, memo: Memo) -> Lone
    requires { (stands (47 ∷ 42 ∷ []) s.now c ≡ true) × Known s.now memo }
    ensures { Behind s.now c result }
{
    let mut at = c;
    loop {
        if covers(s, at, memo) {
            return Lone {
                yes: memo.yes,
                memo: memo,
            };
        }
        let e = closer(s, at + 2);
        if e == s.len() {
            let none = Memo {
                from: c + 2,
                to: e,
                yes: false,
            };
            return Lone {
                yes: false,
                memo: none,
            };
        }
        let q = spaces(s, e + 2);
        if !two_at(s, q, b'/', b'*') {
            let yes = signs(s, q);
            let new = Memo {
                from: c + 2,
                to: e,
                yes: yes,
            };
            let kept = later(memo, new);
            return Lone {
                yes: yes,
                memo: kept,
            };
        }
        at = q;
    }
}

// Whether a key stands alone whose first token ends at k.
pub fn alone(s: &[u8], k: usize, memo: Memo) -> Lone
    requires { Known s.now memo }
    ensures { Behind s.now k result }
{
    let q = spaces(s, k);
    if two_at(s, q, b'/', b'*') {
        return behind(s, q, memo);
    }
    let yes = signs(s, q);
    Lone {
        yes: yes,
        memo: memo,
    }
}
