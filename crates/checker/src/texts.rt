// The text of a template or heredoc, over its pieces and interpolations.
ghost use Rattle.std.specs.Prelude.{◌≤◌};
ghost use Rattle.lexis.specs.Heredoc.{part};
ghost use Rattle.lexis.specs.String.{quoted_of, from_of, to_of};
ghost use Rattle.checker.specs.Texts.{LineEnds, ClosesBy, ShutsAt, OpensAt, StrandAt, Texting, TextBy};

use crate::row::Spot;
use crate::site::Site;
use crate::text::piece;
use grammar::kinds::Kind;
use lexis::bytes::two_at;
use lexis::heredoc::{Line, line_at};
use lexis::string::{Round, Why, run_at};

// Whether the line at q closes the text of a heredoc, and goes on at `end`.
fn line_ends(s: &[u8], q: usize, round: Round, end: usize) -> bool
    ensures { LineEnds s.now (part s.now (from_of round) (to_of round)) q end result }
{
    let (d, e) = round.delimiter();
    match line_at(s, d, e, q) {
        Line::Text => false,
        Line::Closes(at) => at == end,
        Line::Foreign(_) => false,
    }
}

// Whether a text ends at q, by why no unit of it stands there, and what is behind it begins at `end`.
fn closes(s: &[u8], q: usize, round: Round, why: Why, end: usize) -> bool
    requires { q ≤ 65536 }
    ensures { ClosesBy s.now (from_of round) (to_of round) q why end result }
{
    match why {
        Why::Quote => q + 1 == end,
        Why::Interpolation => false,
        Why::Directive => false,
        Why::Escape => false,
        Why::Closing => line_ends(s, q, round, end),
        Why::Foreign => line_ends(s, q, round, end),
        Why::End => false,
    }
}

// Whether a text is closed at q, up to `end`.
fn shuts(s: &[u8], q: usize, round: Round, end: usize) -> bool
    requires { q ≤ 65536 }
    ensures { ShutsAt s.now q (quoted_of round) (from_of round) (to_of round) end result }
{
    let r = run_at(s, q, round);
    let why = r.why;
    if r.end != q {
        return false;
    }
    closes(s, q, round, why, end)
}

// Whether an interpolation begins at q. The first test keeps a forged table from having a long run read again and again.
fn opens(s: &[u8], q: usize, round: Round) -> bool
    ensures { OpensAt s.now q (quoted_of round) (from_of round) (to_of round) result }
{
    if !two_at(s, q, 36, 123) {
        return false;
    }
    let r = run_at(s, q, round);
    if r.end != q {
        return false;
    }
    r.why == Why::Interpolation
}

// Whether the row is a piece or an interpolation of the text at q.
fn strand(s: &[u8], text: &[u8], spot: Spot, q: usize, round: Round) -> bool
    ensures { StrandAt s.now text.now spot.entry.table.now spot.entry.i q (quoted_of round) (from_of round) (to_of round) result }
{
    let start = spot.start();
    if start != q {
        return false;
    }
    if spot.end() <= start {
        return false;
    }
    let kind = spot.kind();
    if kind == Kind::PIECE {
        return piece(s, text, spot, round);
    }
    if kind != Kind::INTERPOLATION {
        return false;
    }
    opens(s, q, round)
}

// Whether the children from the row `first` on are the text from p on, and it ends where the row does. They are as deep as the row.
pub fn texts(
    site: Site,
    text: &[u8],
    depths: &mut [u8],
    first: usize,
    p: usize,
    round: Round,
) -> bool
    requires { Texting site.s.now site.table.now site.i site.marks.now depths.old first (quoted_of round) (from_of round) (to_of round) × (p ≤ 65536) }
    ensures { TextBy site.entry.s.now text.now site.entry.table.now site.entry.i site.entry.marks.now depths.old depths.new first p site.entry.own (quoted_of round) (from_of round) (to_of round) result }
{
    let mut q = p;
    let mut j = first;
    loop {
        if j == site.i {
            return shuts(site.s, q, round, site.end(site.i));
        }
        let child = Spot {
            table: site.table,
            i: j,
        };
        if !strand(site.s, text, child, q, round) {
            return false;
        }
        depths[j] = site.own;
        q = site.end(j);
        j = site.next(j);
    }
}
