// What stands round an object's items: the end of one, the sign after a key, and the keys that may be compared.
ghost use Rattle.std.specs.Prelude.{◌≡◌, ◌&&◌, eqb};
ghost use Rattle.index.specs.Mark.{mark_at};
ghost use Rattle.index.specs.Index.{Indexed};
ghost use Rattle.grammar.specs.Moves.{behind_key};
ghost use Rattle.grammar.specs.Hcl.{bare};
ghost use Rattle.grammar.specs.Alone.{KeyAt};
ghost use Rattle.grammar.specs.Said.{went_from};
ghost use Rattle.grammar.specs.Table.{record_of};
ghost use Rattle.reader.specs.Buffer.{put_at};
ghost use Rattle.reader.specs.Items.{sign_from, met_in, Behind, SignedAt, Keeping, Keeps, Baring, bared};

use crate::Reading;
use crate::at::At;
use crate::put::leaf;
use grammar::kinds::{Kind, Refusal, Refused};
use grammar::moves::{space, unexpected};
use grammar::picks::{Key, key_end, lone, space_end};
use index::mark::{mark, word_to};
use index::{find, insert};
use lexis::bytes::{byte_at, is_start, one_at};
use lexis::operator::equals_end;
use lexis::trivia::{Stop, terminator};
use lexis::word::constant_at;

// What stands behind an item that ends at e: past what ends it and any trivia, the place of the next item or of the `}`.
pub fn behind(s: &[u8], e: usize) -> Result<usize, Refused>
    ensures { Behind s.now e (went_from result) }
{
    let at = space(s, e, false)?;
    if one_at(s, at, 125) {
        return Ok(at);
    }
    match terminator(s, at) {
        Stop::Nothing => Err(unexpected(s, at)),
        Stop::Cut(end) => Err(Refusal::Unexpected.at(end)),
        Stop::End(end) => space(s, end, true),
    }
}

// The sign after a key: where it ends, and 1 for `:`.
#[derive(Clone, Copy, Debug, PartialEq, Eq, Drop)]
pub struct Sign {
    pub at: usize,
    pub flag: usize,
}

// Whether the key at a place, whose mark is m, is the token that stands before g alone, and was met before.
fn is_met(s: &[u8], keys: &[u16], at: At, first: usize, m: u16, g: usize) -> bool
    requires { Indexed s.now keys.now first at.keys × (m ≡ mark_at s.now at.place) }
    ensures { result ≡ (eqb (behind_key s.now at.place) g && met_in s.now keys.now first at.keys at.place) }
{
    // few keys are met, so this is asked first
    if !find(s, keys, first, at.keys, at.place, m) {
        return false;
    }
    let e = key_end(s, at.place);
    space_end(s, e) == g
}

// The sign after the key that ends at e, whose mark is m; the earlier keys of its object stand in the slots from the first-th on.
pub fn sign_at(
    s: &[u8],
    keys: &[u16],
    at: At,
    first: usize,
    m: u16,
    e: usize,
) -> Result<Sign, Refused>
    requires { Indexed s.now keys.now first at.keys × (m ≡ mark_at s.now at.place) }
    ensures { SignedAt s.now keys.now first at.keys at.place e (sign_from result) }
{
    let g = space(s, e, false)?;
    if is_met(s, keys, at, first, m, g) {
        return Err(Refusal::Duplicate.at(at.place));
    }
    let q = equals_end(s, g);
    if q != g {
        return Ok(Sign { at: q, flag: 0 });
    }
    if one_at(s, g, 58) {
        return Ok(Sign { at: g + 1, flag: 1 });
    }
    Err(unexpected(s, g))
}

// The item at a place is the next of its object, whose earlier keys stand in the slots from the first-th on: its key, whose mark is m, goes into the next slot where it may be
// compared, which is known where `alone`. The slot of the next.
pub fn keep(s: &[u8], keys: &mut [u16], at: At, first: usize, m: u16, alone: bool) -> usize
    requires { Keeping s.now keys.old first at.keys at.place m alone }
    ensures { Keeps s.now keys.old keys.new first at.keys at.place result }
{
    if alone {
        insert(s, keys, first, at.keys, at.place, m);
        return at.keys + 1;
    }
    if !lone(s, at.place) {
        return at.keys;
    }
    insert(s, keys, first, at.keys, at.place, m);
    at.keys + 1
}

// What was read of a key: where it is a lone variable, its record is put anew.
pub fn bare(s: &[u8], nodes: &mut [u16], at: At, key: Reading)
    requires { Baring at.place key.end }
    ensures { nodes.new ≡ bared s.now nodes.old at.records key.count at.place key.end }
{
    if key.count != 1 {
        return;
    }
    let b = byte_at(s, at.place);
    if !is_start(b) {
        return;
    }
    if constant_at(s, at.place).is_some() {
        return;
    }
    leaf(nodes, at, Kind::KEY, 0, key.end, 0, 0);
}

// The mark of the key at p, which is perhaps a word.
pub fn marked(s: &[u8], p: usize, word: Option<Key>) -> u16
    requires { KeyAt s.now p word }
    ensures { result ≡ mark_at s.now p }
{
    match word {
        Some(key) => word_to(s, p, key.end),
        None => mark(s, p),
    }
}

// The record of a key that is a word: a constant keeps its kind as a term.
pub fn name(nodes: &mut [u16], at: At, word: Key)
    requires { Baring at.place word.end }
    ensures { nodes.new ≡ put_at nodes.old at.records (record_of (bare word.kind) 0 at.place word.end 1 (0, 0)) }
{
    let kind = if word.kind == Kind::VARIABLE {
        Kind::KEY
    } else {
        word.kind
    };
    leaf(nodes, at, kind, 0, word.end, 0, 0);
}
