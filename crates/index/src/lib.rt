#![tactic(auto)]
// The earlier keys of an object: a trie over the bits of their marks, in lent numbers.
ghost use Rattle.std.specs.Prelude.{◌≡◌, ◌+◌, ◌*◌, ◌≤◌, length, eqb};
ghost use Rattle.lexis.specs.Bytes.{nonzero};
ghost use Rattle.lexis.specs.Keys.{among};
ghost use Rattle.index.specs.Mark.{mark_at};
ghost use Rattle.index.specs.Index.{start_in, mark_in, child_in, starts, Indexed, Fits, Inserted};

use lexis::bytes::{byte_at, is_rest, is_start};
use lexis::keys::same_key;

pub mod mark;

// The child of the slot j on the path that goes on with h.
fn child(keys: &[u16], j: usize, h: u16) -> Option<usize>
    requires { 4 * j + 4 ≤ length keys.now }
    ensures { result ≡ nonzero (child_in keys.now j h) }
{
    match keys[4 * j + 2 + usize::from(h % 2)] {
        0 => None,
        c => Some(usize::from(c)),
    }
}

// Where the key of the slot j starts.
fn start(keys: &[u16], j: usize) -> usize
    requires { 4 * j + 4 ≤ length keys.now }
    ensures { result ≡ start_in keys.now j }
{
    usize::from(keys[4 * j])
}

// Whether the mark of the slot j is m.
fn has_mark(keys: &[u16], j: usize, m: u16) -> bool
    requires { 4 * j + 4 ≤ length keys.now }
    ensures { result ≡ eqb (mark_in keys.now j) m }
{
    keys[4 * j + 1] == m
}

// Whether the key at p, whose mark is m, is equal to one of the slots from the first-th to before the k-th. Only the slots on the path of its mark are asked, and
// of these only those of its mark are compared. Both loops are left at the first equal key.
pub fn find(s: &[u8], keys: &[u16], first: usize, k: usize, p: usize, m: u16) -> bool
    requires { Indexed s.now keys.now first k × (m ≡ mark_at s.now p) }
    ensures { result ≡ among s.now (starts keys.now first k) p }
{
    let b = byte_at(s, p);
    let mut h = m;
    let mut slot = if first < k { Some(first) } else { None };
    'slots: loop {
        let Some(j) = slot else {
            return false;
        };
        let a = start(keys, j);
        let same = has_mark(keys, j, m);
        slot = child(keys, j, h);
        h = h / 2;
        if !same || byte_at(s, a) != b {
            continue 'slots;
        }
        if !is_start(b) {
            if same_key(s, a, p) {
                break 'slots;
            }
            continue 'slots;
        }
        let mut x = a + 1;
        let mut y = p + 1;
        loop {
            let v = byte_at(s, x);
            let w = byte_at(s, y);
            if !is_rest(v) {
                if is_rest(w) {
                    continue 'slots;
                }
                break 'slots;
            }
            if v != w {
                continue 'slots;
            }
            x += 1;
            y += 1;
        }
    }
    true
}

// The key at p, whose mark is m, goes into the k-th slot, which is linked where the path of its mark ends.
pub fn insert(s: &[u8], keys: &mut [u16], first: usize, k: usize, p: usize, m: u16)
    requires { Indexed s.now keys.old first k × Fits keys.old k p × (m ≡ mark_at s.now p) }
    ensures { Inserted s.now keys.old keys.new first k p }
{
    let at = 4 * k;
    keys[at] = p as u16;
    keys[at + 1] = m;
    keys[at + 2] = 0;
    keys[at + 3] = 0;
    if k <= first {
        return;
    }
    let mut h = m;
    let mut j = first;
    while let Some(c) = child(keys, j, h) {
        j = c;
        h = h / 2;
    }
    keys[4 * j + 2 + usize::from(h % 2)] = k as u16;
}
