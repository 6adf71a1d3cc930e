// The rule at one row.
ghost use Rattle.std.specs.Prelude.{◌≡◌, true, false, ◌+◌, ◌*◌, ◌%◌, ◌≤◌, eqb, length, get_or};
ghost use Rattle.checker.specs.Rows.{row_at};
ghost use Rattle.checker.specs.Family.{Linked};
ghost use Rattle.checker.specs.Leaf.{is_grown};
ghost use Rattle.checker.specs.Node.{NoText, Heading, Noding, RuleBy, left_from, LeftTo, NodeBy};
ghost use Rattle.checker.specs.Told.{Told, Telling};

use crate::direct::{item, operator};
use crate::family::family;
use crate::kinds::{first_at, hold, is_grown};
use crate::lay::lay;
use crate::layout::{growth, layout};
use crate::object::object;
use crate::precedence::groups;
use crate::program::fits;
use crate::row::Spot;
use crate::rows::wide;
use crate::single::single;
use crate::site::Site;
use crate::text::string;
use crate::texts::texts;
use grammar::kinds::{Kind, tight};
use grammar::picks::next_at;
use grammar::program::Want;
use lexis::heredoc::opener_at;
use lexis::string::Round;

// Whether a line end may stand, in a depth.
fn multi_line(own: u8) -> bool
    ensures { result ≡ eqb (own % 2) 1 }
{
    own % 2 == 1
}

// A template: its quote, and its text.
fn template(site: Site, text: &[u8], depths: &mut [u8], first: usize) -> bool
    requires { Heading site.s.now site.table.now site.i site.marks.now depths.old × Linked site.marks.now site.i first × ((row_at site.table.now site.i).kind ≡ 7) }
    ensures { RuleBy site.entry.s.now text.now site.entry.table.now site.entry.i site.entry.marks.now depths.old depths.new first site.entry.own result }
{
    let start = site.start();
    if site.table[7 * site.i + 1] != 0 {
        return false;
    }
    if !first_at(site.s, Kind::TEMPLATE, start, site.lines()) {
        return false;
    }
    texts(site, text, depths, first, start + 1, Round::Quoted)
}

// A heredoc: its opener, and its text.
fn heredoc(site: Site, text: &[u8], depths: &mut [u8], first: usize) -> bool
    requires { Heading site.s.now site.table.now site.i site.marks.now depths.old × Linked site.marks.now site.i first × ((row_at site.table.now site.i).kind ≡ 8) }
    ensures { RuleBy site.entry.s.now text.now site.entry.table.now site.entry.i site.entry.marks.now depths.old depths.new first site.entry.own result }
{
    let start = site.start();
    if !first_at(site.s, Kind::HEREDOC, start, site.lines()) {
        return false;
    }
    let Ok(o) = opener_at(site.s, start) else {
        return false;
    };
    if wide(site.table[7 * site.i + 1]) != usize::from(o.dash) {
        return false;
    }
    let round = Round::Heredoc {
        from: o.from,
        to: o.to,
    };
    texts(site, text, depths, first, o.at, round)
}

// Where the l-th row may be the left operand of the row, which is an operator, a conditional or a traversal: the end of the binary operator behind it, or its own end
// where none stands there.
fn left_at(site: Site, l: usize) -> Option<usize>
    requires { 7 * l + 7 ≤ length site.table.now }
    ensures { LeftTo site.entry.s.now site.entry.table.now site.entry.i l (eqb (site.entry.own % 2) 1) (left_from result) }
{
    let start = site.table[7 * l + 2];
    if start != site.table[7 * site.i + 2] {
        return None;
    }
    if site.table[7 * l + 3] <= start {
        return None;
    }
    let kind = site.table[7 * site.i];
    let operand = site.table[7 * l];
    if !groups(usize::from(tight(kind)), usize::from(hold(operand)), false) {
        return None;
    }
    if !fits(Want::Expression, operand) {
        return None;
    }
    let h = next_at(site.s, site.end(l), site.lines());
    if h.kind != kind {
        return None;
    }
    Some(h.end)
}

// A node that grows from its left operand: an operator, a conditional or a traversal.
fn grown(site: Site, text: &[u8], depths: &mut [u8], first: usize) -> bool
    requires { Heading site.s.now site.table.now site.i site.marks.now depths.old × Linked site.marks.now site.i first × (is_grown (row_at site.table.now site.i).kind ≡ true) }
    ensures { RuleBy site.entry.s.now text.now site.entry.table.now site.entry.i site.entry.marks.now depths.old depths.new first site.entry.own result }
{
    if first == site.i {
        return false;
    }
    let Some(e) = left_at(site, first) else {
        return false;
    };
    depths[first] = site.own;
    let next = site.next(first);
    let end = site.end(first);
    if e != end {
        return operator(site, depths, next, e);
    }
    growth(site, depths, next, end)
}

// A node that begins with its own bytes, or is told by its place, and holds no literal text.
fn headed(
    site: Site,
    text: &[u8],
    depths: &mut [u8],
    keys: &mut [u16],
    told: &mut [u16],
    first: usize,
) -> bool
    requires { Noding site.s.now site.table.now site.i site.marks.now depths.old keys.old site.own × Linked site.marks.now site.i first × (is_grown (row_at site.table.now site.i).kind ≡ false) × NoText (row_at site.table.now site.i).kind × Telling site.s.now site.table.now site.i told.old }
    ensures { RuleBy site.entry.s.now text.now site.entry.table.now site.entry.i site.entry.marks.now depths.old depths.new first site.entry.own result × Told site.entry.s.now site.entry.table.now told.new }
{
    let kind = site.table[7 * site.i];
    let start = site.start();
    if !first_at(site.s, kind, start, site.lines()) {
        return false;
    }
    if kind == Kind::OBJECT {
        return object(site, depths, keys, told, first, start);
    }
    if first == site.i {
        return lay(site, depths, first, start);
    }
    layout(site, depths, first, start)
}

// A node of any kind but a piece, over the children that are linked from the row `first` on.
fn ruled(
    site: Site,
    text: &[u8],
    depths: &mut [u8],
    keys: &mut [u16],
    told: &mut [u16],
    first: usize,
) -> bool
    requires { Noding site.s.now site.table.now site.i site.marks.now depths.old keys.old site.own × Linked site.marks.now site.i first × ((row_at site.table.now site.i).kind ≡ 9 → ⊥) × Telling site.s.now site.table.now site.i told.old }
    ensures { RuleBy site.entry.s.now text.now site.entry.table.now site.entry.i site.entry.marks.now depths.old depths.new first site.entry.own result × Told site.entry.s.now site.entry.table.now told.new }
{
    let kind = site.table[7 * site.i];
    if kind == Kind::ITEM {
        return item(site, depths, first, site.start());
    }
    if kind == Kind::STRING {
        if first != site.i {
            return false;
        }
        let spot = Spot {
            table: site.table,
            i: site.i,
        };
        return string(site.s, text, spot);
    }
    if kind == Kind::TEMPLATE {
        return template(site, text, depths, first);
    }
    if kind == Kind::HEREDOC {
        return heredoc(site, text, depths, first);
    }
    if is_grown(kind) {
        return grown(site, text, depths, first);
    }
    headed(site, text, depths, keys, told, first)
}

// Whether the rule holds at the i-th row. It is put into the loop over the rows. Its children's depths are put down, and their links; of an object, what is known of its keys.
#[inline(always)]
pub fn node(
    s: &[u8],
    text: &[u8],
    table: &[u16],
    i: usize,
    marks: &mut [u16],
    depths: &mut [u8],
    keys: &mut [u16],
    told: &mut [u16],
) -> bool
    requires { Noding s.now table.now i marks.old depths.old keys.old (get_or depths.old i 0) × Telling s.now table.now i told.old }
    ensures { NodeBy s.now text.now table.now i depths.old depths.new result × Told s.now table.now told.new }
{
    let own = depths[i];
    // most rows have no children and are told by one look
    if table[7 * i + 4] == 1 {
        if let Some(yes) = single(s, Spot { table, i }, told, multi_line(own)) {
            return yes;
        }
    }
    if table[7 * i] == Kind::PIECE {
        return table[7 * i + 4] == 1;
    }
    let Some(first) = family(table, i, marks) else {
        return false;
    };
    let site = Site {
        s,
        table,
        i,
        marks,
        own,
    };
    ruled(site, text, depths, keys, told, first)
}
