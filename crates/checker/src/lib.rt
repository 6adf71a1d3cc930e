#![tactic(auto)]
// The checker: a table and a text from anyone, tested against a source. It reads nothing anew and builds no tree.
ghost use Rattle.std.specs.Prelude.{◌≡◌, ◌*◌, ◌≤◌, length};
ghost use Rattle.checker.specs.Check.{Rooted, Ready, Walking, Checks};
ghost use Rattle.checker.specs.Told.{Told};

use crate::node::node;
use crate::program::fits;
use crate::row::Spot;
use crate::rows::wide;
use crate::text::columns;
use grammar::kinds::Limit;
use grammar::program::Want;
use lexis::utf8::first_bad;

mod bare;
mod bracket;
mod call;
mod condition;
mod conditional;
mod direct;
mod family;
mod kinds;
mod lay;
mod layout;
mod list;
mod list_for;
mod lone;
mod moves;
mod node;
mod object;
mod pass;
mod precedence;
mod program;
mod row;
mod rows;
mod single;
mod site;
mod text;
mod texts;
mod told;
mod traversal;

// The depth of the root: 64 levels, twice, and no line end.
const TOP: u8 = 128;

// Tables of at most so many rows have a smaller room. The root counts its rows in 16 bits, so there are no more than a source may have bytes. A slot for a key, one for each
// row, is of four numbers.
const FEW: usize = 512;

const FEW_KEYS: usize = 4 * FEW;

const SOME: usize = 3072;

const SOME_KEYS: usize = 4 * SOME;

const MANY: usize = 9216;

const MANY_KEYS: usize = 4 * MANY;

const MOST: usize = 18432;

const MOST_KEYS: usize = 4 * MOST;

const ALL: usize = Limit::SOURCE;

const ALL_KEYS: usize = 4 * ALL;

// Whether the last of n rows can be the root: over all rows, an expression, from the first byte to the last.
fn rooted(source: &[u8], table: &[u16], n: usize) -> bool
    ensures { Rooted source.now table.now n result }
{
    if n == 0 {
        return false;
    }
    if table.len() / Limit::RECORD < n {
        return false;
    }
    let at = Limit::RECORD * (n - 1);
    if wide(table[at + 4]) != n {
        return false;
    }
    if table[at + 2] != 0 {
        return false;
    }
    if wide(table[at + 3]) != source.len() {
        return false;
    }
    fits(Want::Expression, table[at])
}

// The rule at each of n rows, from the last one backwards. `marks` links the children of a row, `depths` holds what the rows to come are under, and
// `keys` the keys of an object, in slots of four numbers; `told` is what objects tell of their keys.
fn walk(
    source: &[u8],
    table: &[u16],
    text: &[u8],
    n: usize,
    marks: &mut [u16],
    depths: &mut [u8],
    keys: &mut [u16],
    told: &mut [u16],
) -> bool
    requires { Walking source.now table.now n marks.old depths.old keys.old × (n ≤ length told.old) × Told source.now table.now told.old }
    ensures { Checks source.now table.now text.now result }
{
    depths[n - 1] = TOP;
    let mut u = text.len();
    for i in (0..n).rev() {
        let Some(before) = columns(Spot { table, i }, u) else {
            return false;
        };
        if !node(source, text, table, i, marks, depths, keys, told) {
            return false;
        }
        u = before;
    }
    u == 0
}

// The walk in a room for so many rows and keys: marks, depths, keys and what is told.
fn walk_in<const ROWS: usize, const KEYS: usize>(
    source: &[u8],
    table: &[u16],
    text: &[u8],
    n: usize,
) -> bool
    requires { Ready source.now table.now n × (n ≤ ROWS) × (ROWS ≤ 65535) × (KEYS ≡ 4 * ROWS) }
    ensures { Checks source.now table.now text.now result }
{
    let mut marks = [1u16; ROWS];
    let mut depths = [0u8; ROWS];
    let mut keys = [1u16; KEYS];
    let mut told = [1u16; ROWS];
    walk(
        source,
        table,
        text,
        n,
        &mut marks,
        &mut depths,
        &mut keys,
        &mut told,
    )
}

// The walk in a room as small as will do, since all of it is cleared.
fn roomed(source: &[u8], table: &[u16], text: &[u8], n: usize) -> bool
    requires { Ready source.now table.now n }
    ensures { Checks source.now table.now text.now result }
{
    if n <= FEW {
        return walk_in::<FEW, FEW_KEYS>(source, table, text, n);
    }
    if n <= SOME {
        return walk_in::<SOME, SOME_KEYS>(source, table, text, n);
    }
    if n <= MANY {
        return walk_in::<MANY, MANY_KEYS>(source, table, text, n);
    }
    if n <= MOST {
        return walk_in::<MOST, MOST_KEYS>(source, table, text, n);
    }
    walk_in::<ALL, ALL_KEYS>(source, table, text, n)
}

// Whether a table and a text are the reading of a source.
pub fn check(source: &[u8], table: &[u16], text: &[u8]) -> bool
    ensures { Checks source.now table.now text.now result }
{
    if source.len() > Limit::SOURCE {
        return false;
    }
    if table.len() % Limit::RECORD != 0 {
        return false;
    }
    let n = table.len() / Limit::RECORD;
    if !rooted(source, table, n) {
        return false;
    }
    if first_bad(source) != source.len() {
        return false;
    }
    roomed(source, table, text, n)
}
