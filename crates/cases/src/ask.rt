// The questions: a function of `lexis` each, by number. tools/cases/README.md has the names of the numbers.
use crate::say::{all, flag, number, say};
use input::byte;
use lexis::heredoc::Line;
use lexis::string::{Round, Why};
use lexis::trivia::{Stop, Unclosed};
use std::io::{self, Write};

// Where the four further numbers of a record stand.
const A: usize = 3;

const B: usize = 4;

const C: usize = 5;

const D: usize = 6;

// A part of the source; none where the numbers do not fit.
fn part(s: &[u8], from: usize, to: usize) -> &[u8] {
    if from <= to && to <= s.len() {
        &s[from..to]
    } else {
        &s[..0]
    }
}

// The byte at p, then a yes or no for each class.
fn classes<W: Write>(out: &mut W, s: &[u8], p: usize) -> io::Result<()> {
    let b = lexis::bytes::byte_at(s, p);
    say(out, usize::from(b))?;
    flag(out, lexis::bytes::is_space(b))?;
    flag(out, lexis::bytes::is_digit(b))?;
    flag(out, lexis::bytes::is_letter(b))?;
    flag(out, lexis::bytes::is_hex(b))?;
    flag(out, lexis::bytes::is_start(b))?;
    flag(out, lexis::bytes::is_rest(b))?;
    flag(out, lexis::bytes::is_foreign(b))
}

fn bytes<W: Write>(out: &mut W, q: u8, head: &[u8], s: &[u8], p: usize) -> io::Result<()> {
    match q {
        1 => classes(out, s, p),
        2 => flag(
            out,
            lexis::bytes::within(
                lexis::bytes::byte_at(s, p),
                u16::from(byte(head, A)),
                u16::from(byte(head, B)),
            ),
        ),
        3 => flag(out, lexis::bytes::one_at(s, p, byte(head, A))),
        4 => flag(
            out,
            lexis::bytes::two_at(s, p, byte(head, A), byte(head, B)),
        ),
        5 => flag(
            out,
            lexis::bytes::all_at(s, p, part(s, number(head, A), number(head, B))),
        ),
        _ => say(out, lexis::utf8::first_bad(s)),
    }
}

// A place, and whether a comment is unclosed there.
fn gap<W: Write>(out: &mut W, g: Result<usize, Unclosed>) -> io::Result<()> {
    match g {
        Ok(at) => place(out, at, 0),
        Err(e) => place(out, e.at, 1),
    }
}

// A place, and a number that says what is there.
fn place<W: Write>(out: &mut W, at: usize, what: usize) -> io::Result<()> {
    say(out, at)?;
    say(out, what)
}

fn stop<W: Write>(out: &mut W, s: &[u8], p: usize) -> io::Result<()> {
    match lexis::trivia::terminator(s, p) {
        Stop::Nothing => place(out, p, 0),
        Stop::End(at) => place(out, at, 1),
        Stop::Cut(at) => place(out, at, 2),
    }
}

fn trivia<W: Write>(out: &mut W, q: u8, s: &[u8], p: usize) -> io::Result<()> {
    match q {
        10 => say(out, lexis::trivia::line_ending(s, p)),
        11 => gap(out, lexis::trivia::skip_line(s, p)),
        12 => gap(out, lexis::trivia::skip_any(s, p)),
        _ => stop(out, s, p),
    }
}

fn words<W: Write>(out: &mut W, q: u8, head: &[u8], s: &[u8], p: usize) -> io::Result<()> {
    match q {
        20 => say(out, lexis::word::ident_end(s, p)),
        21 => say(
            out,
            lexis::word::word_end(s, p, part(s, number(head, A), number(head, B))),
        ),
        22 => say(out, lexis::word::in_end(s, p)),
        23 => say(out, lexis::word::if_end(s, p)),
        24 => say(out, lexis::word::for_end(s, p)),
        _ => say(
            out,
            usize::from(lexis::word::constant_at(s, p).unwrap_or(0)),
        ),
    }
}

fn numbers<W: Write>(out: &mut W, q: u8, s: &[u8], p: usize) -> io::Result<()> {
    match q {
        30 => say(out, lexis::number::digits_end(s, p)),
        31 => say(out, lexis::number::number_end(s, p)),
        _ => match lexis::number::index_at(s, p) {
            Ok(end) => place(out, end, 0),
            Err(over) => place(out, over.end, 1),
        },
    }
}

fn operator<W: Write>(out: &mut W, s: &[u8], p: usize) -> io::Result<()> {
    match lexis::operator::op_at(s, p) {
        Some(o) => write!(out, " {} {} {}", o.kind, o.level, o.width),
        None => write!(out, " 0 0 0"),
    }
}

fn marks<W: Write>(out: &mut W, q: u8, head: &[u8], s: &[u8], p: usize) -> io::Result<()> {
    match q {
        40 => operator(out, s, p),
        41 => say(out, lexis::operator::mark_end(s, p, byte(head, A))),
        42 => say(
            out,
            lexis::operator::pair_end(s, p, byte(head, A), byte(head, B)),
        ),
        43 => say(out, lexis::operator::question_end(s, p)),
        44 => say(out, lexis::operator::colon_end(s, p)),
        45 => say(out, lexis::operator::colons_end(s, p)),
        46 => say(out, lexis::operator::dot_end(s, p)),
        47 => say(out, lexis::operator::dots_end(s, p)),
        48 => say(out, lexis::operator::equals_end(s, p)),
        49 => say(out, lexis::operator::arrow_end(s, p)),
        _ => say(out, lexis::operator::bang_end(s, p)),
    }
}

// Why a run ends, as a number.
fn why<W: Write>(out: &mut W, y: Why) -> io::Result<()> {
    match y {
        Why::Quote => say(out, 1),
        Why::Interpolation => say(out, 2),
        Why::Directive => say(out, 3),
        Why::Escape => say(out, 4),
        Why::Closing => say(out, 5),
        Why::Foreign => say(out, 6),
        Why::End => say(out, 7),
    }
}

// A unit that stands has no reason.
fn unit<W: Write>(out: &mut W, s: &[u8], p: usize, quoted: bool) -> io::Result<()> {
    match lexis::string::unit_at(s, p, quoted) {
        Ok(u) => {
            write!(out, " {} {} {}", u.width, u.bytes, u.count)?;
            why(out, Why::End)
        }
        Err(y) => {
            write!(out, " 0 0 0")?;
            why(out, y)
        }
    }
}

fn run<W: Write>(out: &mut W, s: &[u8], p: usize, round: Round) -> io::Result<()> {
    let r = lexis::string::run_at(s, p, round);
    say(out, r.end)?;
    say(out, r.length)?;
    flag(out, r.escaped)?;
    why(out, r.why)
}

// Whether the text was written, then the whole buffer.
fn written<W: Write>(out: &mut W, s: &[u8], p: usize, round: Round, at: usize) -> io::Result<()> {
    let mut room = [255u8; 12];
    flag(out, lexis::string::write(s, p, round, &mut room, at))?;
    all(out, &room)
}

fn texts<W: Write>(out: &mut W, q: u8, head: &[u8], s: &[u8], p: usize) -> io::Result<()> {
    let quoted = number(head, C) == 1;
    let round = if quoted {
        Round::Quoted
    } else {
        Round::Heredoc {
            from: number(head, A),
            to: number(head, B),
        }
    };
    match q {
        60 => unit(out, s, p, quoted),
        61 => run(out, s, p, round),
        _ => written(out, s, p, round, number(head, D)),
    }
}

fn opener<W: Write>(out: &mut W, s: &[u8], p: usize) -> io::Result<()> {
    match lexis::heredoc::opener_at(s, p) {
        Ok(o) => {
            flag(out, true)?;
            flag(out, o.dash)?;
            write!(out, " {} {} {}", o.from, o.to, o.at)
        }
        Err(at) => write!(out, " 0 0 0 0 {at}"),
    }
}

// 0 for text; 1 for a closing line, 2 for a foreign scalar, each with its place.
fn line<W: Write>(out: &mut W, l: Line) -> io::Result<()> {
    match l {
        Line::Text => say(out, 0),
        Line::Closes(e) => {
            say(out, 1)?;
            say(out, e)
        }
        Line::Foreign(e) => {
            say(out, 2)?;
            say(out, e)
        }
    }
}

fn heredocs<W: Write>(out: &mut W, q: u8, head: &[u8], s: &[u8], p: usize) -> io::Result<()> {
    match q {
        70 => opener(out, s, p),
        71 => line(
            out,
            lexis::heredoc::line_at(s, number(head, A), number(head, B), p),
        ),
        _ => flag(out, lexis::heredoc::starts_line(s, p)),
    }
}

// The earlier keys are at three places, of which those up to the last number count.
fn keys<W: Write>(out: &mut W, q: u8, head: &[u8], s: &[u8], p: usize) -> io::Result<()> {
    let a = number(head, A);
    if q == 80 {
        return flag(out, lexis::keys::same_key(s, p, a));
    }
    let starts = [
        u16::from(byte(head, A)),
        u16::from(byte(head, B)),
        u16::from(byte(head, C)),
    ];
    flag(
        out,
        lexis::keys::met_before(s, &starts, 0, number(head, D), p),
    )
}

pub fn question<W: Write>(out: &mut W, q: u8, head: &[u8], s: &[u8], p: usize) -> io::Result<()> {
    match q {
        0..=9 => bytes(out, q, head, s, p),
        10..=19 => trivia(out, q, s, p),
        20..=29 => words(out, q, head, s, p),
        30..=39 => numbers(out, q, s, p),
        40..=59 => marks(out, q, head, s, p),
        60..=69 => texts(out, q, head, s, p),
        70..=79 => heredocs(out, q, head, s, p),
        _ => keys(out, q, head, s, p),
    }
}
