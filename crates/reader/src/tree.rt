// The functions that call one another: expression, term, quoted template and interpolation, with whatever else holds expressions.
ghost use Rattle.std.specs.Prelude.{◌≡◌, ◌||◌, ◌≤◌, eqb, T};
ghost use Rattle.std.proofs.Math.Option.{some};
ghost use Rattle.engine.specs.Base.{has};
ghost use Rattle.index.specs.Mark.{mark_at};
ghost use Rattle.index.specs.Index.{Indexed};
ghost use Rattle.grammar.specs.Said.{classes};
ghost use Rattle.lexis.specs.Bytes.{byte_at};
ghost use Rattle.lexis.specs.String.{quoted_of, from_of, to_of};
ghost use Rattle.grammar.specs.Alone.{NextAt, Word, KeyAt};
ghost use Rattle.grammar.specs.Hcl.{pick_at};
ghost use Rattle.reader.specs.Said.{at_level, AskedAt, SaidAt, SaidLaid, SaidText, SaidSubAt, SaidItemAt, Climbs, Firsts, Terms, Heads, Primary, LeadAt, Bracketed, Laying, Texting};

use crate::Reading;
use crate::at::{At, Level, Node};
use crate::bare::{attribute, beyond, called, tilde};
use crate::items::{bare, behind, keep, marked, name, sign_at};
use crate::put::{accept, close, close_at};
use crate::text::{ends, lead_at, piece, string};
use grammar::kinds::{Kind, Refusal, Refused, tight};
use grammar::moves::{is_part, space, unexpected, walk};
use grammar::picks::{Head, Key, follow, key_at, next_at, part_at, term_at};
use grammar::program::{Instr, begin, child, instr};
use index::find;
use lexis::bytes::{one_at, two_at};
use lexis::heredoc::opener_at;
use lexis::string::{Round, Why, run_at};

// The classes that are no expressions, as the program numbers them.
const CALLED: u8 = 9;

const PORTION: u8 = 10;

const FILTER: u8 = 12;

// An expression: a term, and the operators of a level above j that follow, with what stands to their right.
#[cycle(tree)]
pub fn expr(
    s: &[u8],
    nodes: &mut [u16],
    text: &mut [u8],
    keys: &mut [u16],
    at: At,
    level: Level,
    j: usize,
) -> Result<Reading, Refused>
    requires { AskedAt s.now keys.old at × (j ≤ 7) }
    ensures { SaidAt (λ s b p. Climbs s b j p) s.now at level nodes.old nodes.new text.old text.new keys.old keys.new result }
{
    let head = lead_at(s, at.place, level.lines);
    let l = first(s, nodes, text, keys, at, level, head)?;
    let mut e = l.end;
    let mut n = l.count;
    let mut t = l.text;
    loop {
        let f = next_at(s, e, level.lines);
        if usize::from(tight(f.kind)) <= j {
            return Ok(accept(e, n, t));
        }
        let on = At {
            records: at.records + n,
            text: at.text + t,
            place: e,
            ..at
        };
        let node = Node {
            kind: f.kind,
            start: at.place,
            before: n,
        };
        let m = grow(s, nodes, text, keys, on, level, node, f.end)?;
        e = m.end;
        n = n + m.count;
        t = t + m.text;
    }
}

// What stands first, with the term of a unary operator. Its head ends at the place itself for all but a word or a number.
#[cycle(tree)]
pub fn first(
    s: &[u8],
    nodes: &mut [u16],
    text: &mut [u8],
    keys: &mut [u16],
    at: At,
    level: Level,
    head: Head,
) -> Result<Reading, Refused>
    requires { AskedAt s.now keys.old at × LeadAt s.now at.place level.lines head }
    ensures { SaidAt Firsts s.now at level nodes.old nodes.new text.old text.new keys.old keys.new result }
{
    if head.end != at.place {
        return Ok(close_at(nodes, at, 0, head.kind, 0, head.end, 0));
    }
    if head.kind == Kind::NONE {
        return Err(unexpected(s, at.place));
    }
    if is_unary(head.kind) {
        return term(s, nodes, text, keys, at, level);
    }
    prim(s, nodes, text, keys, at, level, head.kind)
}

// What follows an operand, for a node. Its head ends at the place itself for all but a binary operator.
#[cycle(tree)]
pub fn grow(
    s: &[u8],
    nodes: &mut [u16],
    text: &mut [u8],
    keys: &mut [u16],
    at: At,
    level: Level,
    node: Node,
    end: usize,
) -> Result<Reading, Refused>
    requires { AskedAt s.now keys.old at × Laying node.start at.place node.before node.kind × NextAt s.now at.place level.lines (record { kind = node.kind; end = end }) }
    ensures { SaidLaid s.now at level node.start node.before node.kind nodes.old nodes.new text.old text.new keys.old keys.new result }
{
    if end == at.place {
        if node.kind == Kind::TRAVERSAL {
            return parts(s, nodes, text, keys, at, level, node);
        }
        return laid(s, nodes, text, keys, at, level, node);
    }
    let g = space(s, end, level.lines)?;
    let h = usize::from(tight(node.kind));
    let m = expr(s, nodes, text, keys, At { place: g, ..at }, level, h)?;
    Ok(close(nodes, at.records, m.count, node, 0, m.end, m.text))
}

// A term, its traversals included; for a unary operator it calls itself.
#[cycle(tree)]
pub fn term(
    s: &[u8],
    nodes: &mut [u16],
    text: &mut [u8],
    keys: &mut [u16],
    at: At,
    level: Level,
) -> Result<Reading, Refused>
    requires { AskedAt s.now keys.old at }
    ensures { SaidAt Terms s.now at level nodes.old nodes.new text.old text.new keys.old keys.new result }
{
    let Some(kind) = term_at(s, at.place, level.lines) else {
        return Err(unexpected(s, at.place));
    };
    if is_unary(kind) {
        let under = level.deeper(at.place, level.lines)?;
        let g = space(s, at.place + 1, false)?;
        let m = term(s, nodes, text, keys, At { place: g, ..at }, under)?;
        return Ok(close_at(nodes, at, m.count, kind, 0, m.end, m.text));
    }
    let l = prim(s, nodes, text, keys, at, level, kind)?;
    let mut e = l.end;
    let mut n = l.count;
    let mut t = l.text;
    loop {
        let f = follow(s, e, level.lines).unwrap_or(Kind::NONE);
        if f != Kind::TRAVERSAL {
            return Ok(accept(e, n, t));
        }
        let on = At {
            records: at.records + n,
            text: at.text + t,
            place: e,
            ..at
        };
        let node = Node {
            kind: f,
            start: at.place,
            before: n,
        };
        let m = laid(s, nodes, text, keys, on, level, node)?;
        e = m.end;
        n = n + m.count;
        t = t + m.text;
    }
}

// Whether a kind is a unary operator.
fn is_unary(kind: u16) -> bool
    ensures { result ≡ (eqb kind 22 || eqb kind 23) }
{
    kind == Kind::NEGATION || kind == Kind::NOT
}

// Whether a kind is that of a quote: a string or a template.
fn is_quoted(kind: u16) -> bool
    ensures { result ≡ (eqb kind 6 || eqb kind 7) }
{
    kind == Kind::STRING || kind == Kind::TEMPLATE
}

// What a term begins with, of a kind that is no unary operator.
#[cycle(tree)]
pub fn prim(
    s: &[u8],
    nodes: &mut [u16],
    text: &mut [u8],
    keys: &mut [u16],
    at: At,
    level: Level,
    kind: u16,
) -> Result<Reading, Refused>
    requires { AskedAt s.now keys.old at × Primary s.now level.left level.lines at.place kind }
    ensures { SaidAt Heads s.now at level nodes.old nodes.new text.old text.new keys.old keys.new result }
{
    if is_quoted(kind) {
        return quoted(s, nodes, text, keys, at, level);
    }
    if kind == Kind::HEREDOC {
        return heredoc(s, nodes, text, keys, at, level);
    }
    if kind == Kind::OBJECT {
        return object(s, nodes, text, keys, at, level);
    }
    if kind == Kind::ARRAY {
        return array(s, nodes, text, keys, at, level);
    }
    if kind == Kind::PARENTHESES {
        return within(s, nodes, text, keys, at, level, kind, 41);
    }
    let node = Node {
        kind,
        start: at.place,
        before: 0,
    };
    laid(s, nodes, text, keys, at, level, node)
}

// The production of a node whose kind is one of the program, read on from the place.
#[cycle(tree)]
pub fn laid(
    s: &[u8],
    nodes: &mut [u16],
    text: &mut [u8],
    keys: &mut [u16],
    at: At,
    level: Level,
    node: Node,
) -> Result<Reading, Refused>
    requires { AskedAt s.now keys.old at × Laying node.start at.place node.before node.kind }
    ensures { SaidLaid s.now at level node.start node.before node.kind nodes.old nodes.new text.old text.new keys.old keys.new result }
{
    let mut pc = begin(node.kind);
    let mut q = at.place;
    let mut n = 0;
    let mut t = 0;
    loop {
        let x = instr(pc);
        if x.op == Instr::FIN {
            return Ok(close(nodes, at.records, n, node, x.arg, q, t));
        }
        let (mut place, mut further) = (q, pc + 1);
        if x.op != Instr::KID {
            let to = match walk(s, level.left, level.lines, x.arg, q) {
                Ok(to) => to,
                Err(refused) if x.op == Instr::MOVE => return Err(refused),
                Err(_) => {
                    pc = x.next;
                    continue;
                }
            };
            if x.op != Instr::REP {
                q = to;
                pc = pc + 1;
                continue;
            }
            place = to;
            further = pc;
        }
        let on = At {
            records: at.records + n,
            text: at.text + t,
            place,
            ..at
        };
        let m = sub(s, nodes, text, keys, on, level, x.class)?;
        q = m.end;
        n = n + m.count;
        t = t + m.text;
        pc = further;
    }
}

// A child of a class, under a node of a level.
#[cycle(tree)]
pub fn sub(
    s: &[u8],
    nodes: &mut [u16],
    text: &mut [u8],
    keys: &mut [u16],
    at: At,
    level: Level,
    class: u8,
) -> Result<Reading, Refused>
    requires { AskedAt s.now keys.old at × T (has classes class) }
    ensures { SaidSubAt class s.now at level nodes.old nodes.new text.old text.new keys.old keys.new result }
{
    let y = child(class, level.left, level.lines);
    let under = Level {
        left: y.left,
        lines: y.lines,
    };
    if class == CALLED {
        return called(s, nodes, at);
    }
    if class == FILTER {
        let node = Node {
            kind: Kind::CONDITION,
            start: at.place,
            before: 0,
        };
        return laid(s, nodes, text, keys, at, under, node);
    }
    if class == PORTION {
        let Some(kind) = part_at(s, at.place) else {
            return Err(unexpected(s, at.place));
        };
        let node = Node {
            kind,
            start: at.place,
            before: 0,
        };
        return laid(s, nodes, text, keys, at, under, node);
    }
    expr(s, nodes, text, keys, at, under, y.bound)
}

// An array: its items, with a comma between two and perhaps behind the last.
#[cycle(tree)]
pub fn array(
    s: &[u8],
    nodes: &mut [u16],
    text: &mut [u8],
    keys: &mut [u16],
    at: At,
    level: Level,
) -> Result<Reading, Refused>
    requires { AskedAt s.now keys.old at × (byte_at s.now at.place ≡ 91) }
    ensures { SaidLaid s.now at level at.place 0 11 nodes.old nodes.new text.old text.new keys.old keys.new result }
{
    let under = level.deeper(at.place, true)?;
    let g = space(s, at.place + 1, true)?;
    let mut q = g;
    let mut n = 0;
    let mut t = 0;
    loop {
        if one_at(s, q, 93) {
            return Ok(close_at(nodes, at, n, Kind::ARRAY, 0, q + 1, t));
        }
        let on = At {
            records: at.records + n,
            text: at.text + t,
            place: q,
            ..at
        };
        let m = expr(s, nodes, text, keys, on, under, 0)?;
        n = n + m.count;
        t = t + m.text;
        let c = beyond(s, m.end)?;
        q = c;
    }
}

// An expression in brackets, of a kind, with what closes it.
#[cycle(tree)]
pub fn within(
    s: &[u8],
    nodes: &mut [u16],
    text: &mut [u8],
    keys: &mut [u16],
    at: At,
    level: Level,
    kind: u16,
    closer: u8,
) -> Result<Reading, Refused>
    requires { AskedAt s.now keys.old at × Bracketed s.now at.place kind closer }
    ensures { SaidLaid s.now at level at.place 0 kind nodes.old nodes.new text.old text.new keys.old keys.new result }
{
    let under = level.deeper(at.place, true)?;
    let g = space(s, at.place + 1, true)?;
    let m = expr(s, nodes, text, keys, At { place: g, ..at }, under, 0)?;
    let h = space(s, m.end, true)?;
    if !one_at(s, h, closer) {
        return Err(unexpected(s, h));
    }
    Ok(close_at(nodes, at, m.count, kind, 0, h + 1, m.text))
}

// A part of a traversal.
#[cycle(tree)]
pub fn part(
    s: &[u8],
    nodes: &mut [u16],
    text: &mut [u8],
    keys: &mut [u16],
    at: At,
    level: Level,
) -> Result<Reading, Refused>
    requires { AskedAt s.now keys.old at }
    ensures { SaidSubAt 10 s.now at level nodes.old nodes.new text.old text.new keys.old keys.new result }
{
    let Some(kind) = part_at(s, at.place) else {
        return Err(unexpected(s, at.place));
    };
    if kind == Kind::ATTRIBUTE {
        return attribute(s, nodes, at);
    }
    if kind == Kind::INDEX {
        return within(s, nodes, text, keys, at, level, kind, 93);
    }
    let node = Node {
        kind,
        start: at.place,
        before: 0,
    };
    laid(s, nodes, text, keys, at, level, node)
}

// The parts of a traversal from the place on, whose base is the left operand of its node.
#[cycle(tree)]
pub fn parts(
    s: &[u8],
    nodes: &mut [u16],
    text: &mut [u8],
    keys: &mut [u16],
    at: At,
    level: Level,
    node: Node,
) -> Result<Reading, Refused>
    requires { AskedAt s.now keys.old at × Laying node.start at.place node.before 37 × (node.kind ≡ 37) }
    ensures { SaidLaid s.now at level node.start node.before 37 nodes.old nodes.new text.old text.new keys.old keys.new result }
{
    let mut q = at.place;
    let mut n = 0;
    let mut t = 0;
    loop {
        let g = match space(s, q, level.lines) {
            Ok(g) => g,
            Err(refused) => {
                if n == 0 {
                    return Err(refused);
                }
                return Ok(close(nodes, at.records, n, node, 0, q, t));
            }
        };
        if !is_part(s, g) {
            if n == 0 {
                return Err(unexpected(s, g));
            }
            return Ok(close(nodes, at.records, n, node, 0, q, t));
        }
        let on = At {
            records: at.records + n,
            text: at.text + t,
            place: g,
            ..at
        };
        let m = part(s, nodes, text, keys, on, level)?;
        q = m.end;
        n = n + m.count;
        t = t + m.text;
    }
}

// An interpolation.
#[cycle(tree)]
pub fn interp(
    s: &[u8],
    nodes: &mut [u16],
    text: &mut [u8],
    keys: &mut [u16],
    at: At,
    level: Level,
) -> Result<Reading, Refused>
    requires { AskedAt s.now keys.old at }
    ensures { SaidLaid s.now at level at.place 0 10 nodes.old nodes.new text.old text.new keys.old keys.new result }
{
    if !two_at(s, at.place, 36, 123) {
        return Err(unexpected(s, at.place));
    }
    let under = level.deeper(at.place, true)?;
    let f = tilde(s, at.place + 2);
    let g = space(s, at.place + 2 + f, true)?;
    let m = expr(s, nodes, text, keys, At { place: g, ..at }, under, 0)?;
    let h = space(s, m.end, true)?;
    let z = tilde(s, h);
    let c = h + z;
    if !one_at(s, c, 125) {
        return Err(unexpected(s, c));
    }
    let flag = f + 2 * z;
    Ok(close_at(nodes, at, m.count, Kind::INTERPOLATION, flag, c + 1, m.text))
}

// A quote: a string, or a template where an interpolation ends its first run.
#[cycle(tree)]
pub fn quoted(
    s: &[u8],
    nodes: &mut [u16],
    text: &mut [u8],
    keys: &mut [u16],
    at: At,
    level: Level,
) -> Result<Reading, Refused>
    requires { AskedAt s.now keys.old at × (byte_at s.now at.place ≡ 34) }
    ensures { SaidAt Heads s.now at level nodes.old nodes.new text.old text.new keys.old keys.new result }
{
    let r = run_at(s, at.place + 1, Round::Quoted);
    let why = r.why;
    let Why::Interpolation = why else {
        return string(s, nodes, text, at, r);
    };
    let inside = At {
        place: at.place + 1,
        ..at
    };
    let node = Node {
        kind: Kind::TEMPLATE,
        start: at.place,
        before: 0,
    };
    let round = Round::Quoted;
    pieces(s, nodes, text, keys, inside, level, node, 0, round)
}

// A heredoc.
#[cycle(tree)]
pub fn heredoc(
    s: &[u8],
    nodes: &mut [u16],
    text: &mut [u8],
    keys: &mut [u16],
    at: At,
    level: Level,
) -> Result<Reading, Refused>
    requires { AskedAt s.now keys.old at × (pick_at s.now (at_level level) at.place ≡ some 8) }
    ensures { SaidAt Heads s.now at level nodes.old nodes.new text.old text.new keys.old keys.new result }
{
    let o = match opener_at(s, at.place) {
        Ok(o) => o,
        Err(end) => return Err(unexpected(s, end)),
    };
    let flag = usize::from(o.dash);
    let inside = At { place: o.at, ..at };
    let round = Round::Heredoc {
        from: o.from,
        to: o.to,
    };
    let node = Node {
        kind: Kind::HEREDOC,
        start: at.place,
        before: 0,
    };
    pieces(s, nodes, text, keys, inside, level, node, flag, round)
}

// The text of a template or heredoc, from the place on: its pieces and interpolations, and its end.
#[cycle(tree)]
pub fn pieces(
    s: &[u8],
    nodes: &mut [u16],
    text: &mut [u8],
    keys: &mut [u16],
    at: At,
    level: Level,
    node: Node,
    flag: usize,
    round: Round,
) -> Result<Reading, Refused>
    requires { AskedAt s.now keys.old at × Texting s.now node.start at.place node.kind flag (quoted_of round) (from_of round) (to_of round) × (node.before ≡ 0) }
    ensures { SaidText s.now at level node.start node.kind flag nodes.old nodes.new text.old text.new keys.old keys.new result }
{
    let mut q = at.place;
    let mut n = 0;
    let mut t = 0;
    loop {
        let r = run_at(s, q, round);
        let why = r.why;
        let on = At {
            records: at.records + n,
            text: at.text + t,
            place: q,
            ..at
        };
        if r.end != q {
            let v = piece(s, nodes, text, on, r, round);
            q = r.end;
            n = n + 1;
            t = t + v;
            continue;
        }
        let Why::Interpolation = why else {
            let c = ends(s, node.start, q, round, why)?;
            return Ok(close(nodes, at.records, n, node, flag, c, t));
        };
        let m = interp(s, nodes, text, keys, on, level)?;
        q = m.end;
        n = n + m.count;
        t = t + m.text;
    }
}

// An object. Its keys that may be compared stand in the slots from the next one on.
#[cycle(tree)]
pub fn object(
    s: &[u8],
    nodes: &mut [u16],
    text: &mut [u8],
    keys: &mut [u16],
    at: At,
    level: Level,
) -> Result<Reading, Refused>
    requires { AskedAt s.now keys.old at × (pick_at s.now (at_level level) at.place ≡ some 12) }
    ensures { SaidAt Heads s.now at level nodes.old nodes.new text.old text.new keys.old keys.new result }
{
    let under = level.deeper(at.place, true)?;
    let g = space(s, at.place + 1, true)?;
    if one_at(s, g, 125) {
        return Ok(close_at(nodes, at, 0, Kind::OBJECT, 0, g + 1, 0));
    }
    let mut q = g;
    let mut n = 0;
    let mut t = 0;
    let mut top = at.keys;
    loop {
        let word = key_at(s, q);
        let h = marked(s, q, word);
        let on = At {
            records: at.records + n,
            text: at.text + t,
            keys: top,
            place: q,
        };
        let m = item(s, nodes, text, keys, on, under.left, at.keys, h, word)?;
        n = n + m.count;
        t = t + m.text;
        let c = behind(s, m.end)?;
        if one_at(s, c, 125) {
            return Ok(close_at(nodes, at, n, Kind::OBJECT, 0, c + 1, t));
        }
        top = keep(s, keys, on, at.keys, h, word.is_some());
        q = c;
    }
}

// An item, whose key has the mark h and is perhaps a word, with the earlier keys of its object in the slots from the first-th to before the next one.
#[cycle(tree)]
pub fn item(
    s: &[u8],
    nodes: &mut [u16],
    text: &mut [u8],
    keys: &mut [u16],
    at: At,
    left: usize,
    first: usize,
    h: u16,
    word: Option<Key>,
) -> Result<Reading, Refused>
    requires { AskedAt s.now keys.old at × Indexed s.now keys.old first at.keys × (h ≡ mark_at s.now at.place) × KeyAt s.now at.place word }
    ensures { SaidItemAt s.now at left first nodes.old nodes.new text.old text.new keys.old keys.new result }
{
    if let Some(key) = word {
        return named(s, nodes, text, keys, at, left, first, h, key);
    }
    let m = expr(s, nodes, text, keys, at, Level { left, lines: false }, 0)?;
    bare(s, nodes, at, m);
    let c = sign_at(s, keys, at, first, h, m.end)?;
    let g = space(s, c.at, false)?;
    let on = At {
        records: at.records + m.count,
        text: at.text + m.text,
        place: g,
        ..at
    };
    let v = expr(s, nodes, text, keys, on, Level { left, lines: false }, 0)?;
    let n = m.count + v.count;
    let t = m.text + v.text;
    Ok(close_at(nodes, at, n, Kind::ITEM, c.flag, v.end, t))
}

// An item whose key is a word with its sign.
#[cycle(tree)]
pub fn named(
    s: &[u8],
    nodes: &mut [u16],
    text: &mut [u8],
    keys: &mut [u16],
    at: At,
    left: usize,
    first: usize,
    h: u16,
    word: Key,
) -> Result<Reading, Refused>
    requires { AskedAt s.now keys.old at × Indexed s.now keys.old first at.keys × (h ≡ mark_at s.now at.place) × Word s.now at.place word }
    ensures { SaidItemAt s.now at left first nodes.old nodes.new text.old text.new keys.old keys.new result }
{
    name(nodes, at, word);
    if find(s, keys, first, at.keys, at.place, h) {
        return Err(Refusal::Duplicate.at(at.place));
    }
    let g = space(s, word.at + 1, false)?;
    let on = At {
        records: at.records + 1,
        place: g,
        ..at
    };
    let v = expr(s, nodes, text, keys, on, Level { left, lines: false }, 0)?;
    Ok(close_at(nodes, at, 1 + v.count, Kind::ITEM, word.flag, v.end, v.text))
}
