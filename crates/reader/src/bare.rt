// What is read by bytes alone: names, attributes and the marks of an interpolation.
ghost use Rattle.std.specs.Prelude.{◌≡◌};
ghost use Rattle.lexis.specs.Bytes.{byte_at};
ghost use Rattle.grammar.specs.Said.{went_from};
ghost use Rattle.reader.specs.Said.{answered};
ghost use Rattle.reader.specs.Bare.{Naming, SaidBare, Beyond, tilde_at};

use crate::Reading;
use crate::at::At;
use crate::put::close_at;
use grammar::kinds::{Kind, Refused};
use grammar::moves::{space, unexpected};
use lexis::bytes::one_at;
use lexis::word::ident_end;

// A name, of a call or a for.
pub fn called(s: &[u8], nodes: &mut [u16], at: At) -> Result<Reading, Refused>
    requires { Naming s.now at.records at.place }
    ensures { SaidBare 17 s.now at.records at.place nodes.old nodes.new (answered result) }
{
    let e = ident_end(s, at.place);
    if e == at.place {
        return Err(unexpected(s, at.place));
    }
    Ok(close_at(nodes, at, 0, Kind::NAME, 0, e, 0))
}

// An attribute, from its dot on.
pub fn attribute(s: &[u8], nodes: &mut [u16], at: At) -> Result<Reading, Refused>
    requires { Naming s.now at.records at.place × (byte_at s.now at.place ≡ 46) }
    ensures { SaidBare 38 s.now at.records at.place nodes.old nodes.new (answered result) }
{
    let g = space(s, at.place + 1, true)?;
    let e = ident_end(s, g);
    if e == g {
        return Err(unexpected(s, g));
    }
    Ok(close_at(nodes, at, 0, Kind::ATTRIBUTE, 0, e, 0))
}

// Behind an item of an array that ends at e: to the next one past a comma, or to the `]`.
pub fn beyond(s: &[u8], e: usize) -> Result<usize, Refused>
    ensures { Beyond s.now e (went_from result) }
{
    let c = space(s, e, true)?;
    if one_at(s, c, 44) {
        return space(s, c + 1, true);
    }
    if one_at(s, c, 93) {
        return Ok(c);
    }
    Err(unexpected(s, c))
}

// 1 where a `~` stands at p, else 0.
pub fn tilde(s: &[u8], p: usize) -> usize
    ensures { result ≡ tilde_at s.now p }
{
    if one_at(s, p, 126) { 1 } else { 0 }
}
