// Strings, and the pieces and ends of templates and heredocs.
ghost use Rattle.std.specs.Prelude.{◌≡◌, ◌+◌, ◌≤◌};
ghost use Rattle.lexis.specs.Heredoc.{line_at, part};
ghost use Rattle.lexis.specs.String.{quoted, quoted_of, from_of, to_of, RunHere};
ghost use Rattle.grammar.specs.Moves.{closes_as};
ghost use Rattle.reader.specs.Said.{answered, LeadAt};
ghost use Rattle.reader.specs.Text.{ended, step_from, Ends, Piecing, Pieced, Quoting, SaidString};

use crate::Reading;
use crate::at::At;
use crate::put::{accept, leaf};
use grammar::kinds::{Kind, Refusal, Refused};
use grammar::picks::{Head, head_at};
use lexis::bytes::byte_at;
use lexis::heredoc::{Line, line_at};
use lexis::string::{Round, Run, Why, write};

// How the line at q closes the text of a heredoc.
fn closing(s: &[u8], q: usize, round: Round) -> Result<usize, Refused>
    ensures { ended result ≡ step_from (closes_as (line_at (part s.now (from_of round) (to_of round)) s.now q) q) }
{
    let (d, e) = round.delimiter();
    match line_at(s, d, e, q) {
        Line::Text => Err(Refusal::Unexpected.at(q)),
        Line::Closes(at) => Ok(at),
        Line::Foreign(at) => Err(Refusal::Foreign.at(at)),
    }
}

// Where the text that starts at `start` ends at q, by why no unit of text stands there.
pub fn ends(s: &[u8], start: usize, q: usize, round: Round, why: Why) -> Result<usize, Refused>
    requires { q ≤ 65535 }
    ensures { Ends s.now start q (from_of round) (to_of round) why (ended result) }
{
    match why {
        Why::Quote => Ok(q + 1),
        Why::Interpolation => Err(Refusal::Unexpected.at(q)),
        Why::Directive => Err(Refusal::Directive.at(q)),
        Why::Escape => Err(Refusal::Escape.at(q)),
        Why::Closing => closing(s, q, round),
        Why::Foreign => closing(s, q, round),
        Why::End => Err(Refusal::Unclosed.at(start)),
    }
}

// The piece of a run: its record and, where it is escaped, its text. The answer is how many bytes of text it used.
pub fn piece(s: &[u8], nodes: &mut [u16], text: &mut [u8], at: At, r: Run, round: Round) -> usize
    requires { Piecing at.text at.place r.end r.length }
    ensures { Pieced s.now at.records at.text at.place r.end r.escaped r.length (quoted_of round) (from_of round) (to_of round) nodes.old nodes.new text.old text.new result }
{
    let from = at.place;
    if r.escaped {
        write(s, from, round, text, at.text);
        leaf(nodes, at, Kind::PIECE, 1, r.end, at.text, r.length);
        return r.length;
    }
    leaf(nodes, at, Kind::PIECE, 0, r.end, from, r.end - from);
    0
}

// What stands first at p, with a quote told from all else by its byte: whether it is a string's is seen when its text is run through.
pub fn lead_at(s: &[u8], p: usize, lines: bool) -> Head
    ensures { LeadAt s.now p lines result }
{
    if byte_at(s, p) == 34 {
        return Head {
            kind: Kind::STRING,
            end: p,
        };
    }
    head_at(s, p, lines)
}

// A string with its run: its record and, where it is escaped, its text.
pub fn string(
    s: &[u8],
    nodes: &mut [u16],
    text: &mut [u8],
    at: At,
    r: Run,
) -> Result<Reading, Refused>
    requires { Quoting s.now at.records at.text at.place × RunHere quoted s.now (at.place + 1) r }
    ensures { SaidString s.now at.records at.text at.place nodes.old nodes.new text.old text.new (answered result) }
{
    let from = at.place + 1;
    let why = r.why;
    let c = ends(s, at.place, r.end, Round::Quoted, why)?;
    if r.escaped {
        write(s, from, Round::Quoted, text, at.text);
        leaf(nodes, at, Kind::STRING, 1, c, at.text, r.length);
        return Ok(accept(c, 1, r.length));
    }
    leaf(nodes, at, Kind::STRING, 0, c, from, r.end - from);
    Ok(accept(c, 1, 0))
}
