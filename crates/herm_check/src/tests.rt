//! Rows by hand. A flow is its points with `;` between: needs, `|`, and edges with `,` between. An edge is a letter for its outcome (`o`, `t`, `f`, or
//! a digit for an exception), facts that it makes behind `+`, paths that it takes away behind `-`, `&` where it makes the facts of the edge before it too, and behind `>`
//! the number of the point to which it leads, or `.` for an end, where no edge stands. A fact is a word of digits, as `0` for `init` of variable 0, `10` for its part 0, `1=2` for a component.
use super::ready::missing_in;
use super::*;
use herm_base::{ExcNo, StmtNo, VarNo};
use herm_flow::{NO_LIST, OnwardEdge, OnwardFlow, OnwardPoint};
use herm_typed::Outcome;
use herm_types::{Fact, Path};
use std::alloc::{AllocError, Global};
use std::test::Fail;

fn digit(byte: u8) -> u32 {
    u32::from(byte.saturating_sub(b'0'))
}

fn path_of(alloc: Global, word: &[u8]) -> Result<Path, AllocError> {
    let mut parts = Vec::new(alloc);
    let mut var = 0;
    for (i, byte) in word.iter().enumerate() {
        if i == 0 {
            var = digit(*byte);
        } else {
            parts.push(digit(*byte))?;
        }
    }
    Ok(Path {
        var: VarNo(var),
        parts,
    })
}

fn fact_of(alloc: Global, word: &[u8]) -> Result<Fact, AllocError> {
    match word {
        [path @ .., b'=', component] => {
            let path = path_of(alloc, path)?;
            Ok(Fact::Case(path, digit(*component)))
        }
        _ => {
            let path = path_of(alloc, word)?;
            Ok(Fact::Init(path))
        }
    }
}

fn outcome_of(letter: u8) -> Outcome {
    match letter {
        b'o' => Outcome::Ok,
        b't' => Outcome::True,
        b'f' => Outcome::False,
        _ => Outcome::Raised(ExcNo(digit(letter))),
    }
}

fn target_of(letter: u8) -> Option<u32> {
    match letter {
        b'.' => None,
        _ => Some(digit(letter).saturating_sub(1)),
    }
}

/// What the text of an edge says.
#[derive(Drop)]
struct Said {
    outcome: Outcome,
    makes: Vec<Fact>,
    kills: Vec<Path>,
    like_before: bool,
    to: Option<u32>,
}

fn push_word(alloc: Global, said: &mut Said, sign: u8, word: &[u8]) -> Result<(), AllocError> {
    if sign == b'+' {
        let fact = fact_of(alloc, word)?;
        said.makes.push(fact)?;
    }
    if sign == b'-' {
        let path = path_of(alloc, word)?;
        said.kills.push(path)?;
    }
    if sign == b'&' {
        said.like_before = true;
    }
    Ok(())
}

fn said_of(alloc: Global, text: &[u8]) -> Result<Said, AllocError> {
    let mut said = Said {
        outcome: Outcome::Ok,
        makes: Vec::new(alloc),
        kills: Vec::new(alloc),
        like_before: false,
        to: None,
    };
    let mut sign = b'?';
    let mut word: Vec<u8> = Vec::new(alloc);
    for byte in text {
        if sign == b'?' {
            said.outcome = outcome_of(*byte);
            sign = b' ';
        } else if sign == b'>' {
            said.to = target_of(*byte);
        } else if b"+-&>".contains(byte) {
            push_word(alloc, &mut said, sign, word.as_slice())?;
            sign = *byte;
            word.clear();
        } else {
            word.push(*byte)?;
        }
    }
    Ok(said)
}

/// The number of the next of so many lists.
fn list_number(count: usize) -> Result<u32, AllocError> {
    if count >= NO_LIST as usize {
        return Err(AllocError);
    }
    Ok(count as u32)
}

/// Adds the edge with its lists, where it leads on: its facts are a list of their own.
fn push_edge(alloc: Global, point: &mut OnwardPoint, said: Said) -> Result<(), AllocError> {
    let Said {
        outcome,
        makes,
        kills,
        like_before,
        to,
    } = said;
    let Some(to) = to else {
        return Ok(());
    };
    let list = list_number(point.made.len())?;
    let mut named = Vec::new(alloc);
    if like_before {
        named.push(list.saturating_sub(1))?;
    }
    named.push(list)?;
    point.made.push(makes)?;
    let mut gone = NO_LIST;
    if !kills.is_empty() {
        gone = list_number(point.gone.len())?;
        point.gone.push(kills)?;
    }
    point.edges.push(OnwardEdge {
        outcome,
        to,
        makes: named,
        kills: gone,
    })?;
    Ok(())
}

fn point_of(alloc: Global, number: u32, text: &str) -> Result<OnwardPoint, AllocError> {
    let mut point = OnwardPoint {
        stmt: StmtNo(number),
        needs: Vec::new(alloc),
        made: Vec::new(alloc),
        gone: Vec::new(alloc),
        edges: Vec::new(alloc),
    };
    let mut sides = text.split('|');
    if let Some(side) = sides.next() {
        for word in side.split_whitespace() {
            point.needs.push(fact_of(alloc, word.as_bytes())?)?;
        }
    }
    if let Some(side) = sides.next() {
        for word in side.split(',') {
            let said = said_of(alloc, word.as_bytes())?;
            push_edge(alloc, &mut point, said)?;
        }
    }
    Ok(point)
}

fn flow_of(alloc: Global, text: &str) -> Result<OnwardFlow, AllocError> {
    let mut points = Vec::new(alloc);
    let mut number = 1;
    for word in text.split(';') {
        if !word.is_empty() {
            points.push(point_of(alloc, number, word)?)?;
            number = number.saturating_add(1);
        }
    }
    Ok(OnwardFlow { points })
}

fn push_path(alloc: Global, path: &Path, out: &mut String) -> Result<(), AllocError> {
    let var = format!(in alloc; "{}", path.var.0)?;
    out.push_str(var.as_str())?;
    for part in &path.parts {
        let step = format!(in alloc; "{part}")?;
        out.push_str(step.as_str())?;
    }
    Ok(())
}

fn push_fact(alloc: Global, fact: &Fact, out: &mut String) -> Result<(), AllocError> {
    match fact {
        Fact::Init(path) => push_path(alloc, path, out),
        Fact::Case(path, component) => {
            push_path(alloc, path, out)?;
            let step = format!(in alloc; "={component}")?;
            out.push_str(step.as_str())?;
            Ok(())
        }
    }
}

fn push_outcome(alloc: Global, outcome: Outcome, out: &mut String) -> Result<(), AllocError> {
    match outcome {
        Outcome::Ok => out.push_str("o"),
        Outcome::True => out.push_str("t"),
        Outcome::False => out.push_str("f"),
        Outcome::Raised(e) => {
            let word = format!(in alloc; ":{}", e.0)?;
            out.push_str(word.as_str())?;
            Ok(())
        }
        _ => out.push_str("?"),
    }
}

fn push_missing(
    alloc: Global,
    fact: &Fact,
    by: &Search,
    missing: &MissingAt,
    out: &mut String,
) -> Result<(), AllocError> {
    let number = format!(in alloc; "{} ", missing.stmt.0)?;
    out.push_str(number.as_str())?;
    push_fact(alloc, fact, out)?;
    for hop in &trail(alloc, by.visits.as_slice(), missing.place)? {
        let number = format!(in alloc; " {}", hop.stmt.0)?;
        out.push_str(number.as_str())?;
        push_outcome(alloc, hop.outcome, out)?;
    }
    Ok(())
}

fn told(alloc: Global, missing: &Missing) -> Result<String, AllocError> {
    let mut out = String::new(alloc);
    for (i, m) in missing.facts.iter().enumerate() {
        if i != 0 {
            out.push_str("; ")?;
        }
        let fact = missing.lost.as_slice().get(m.fact);
        let by = missing.searches.as_slice().get(m.search);
        if let (Some(fact), Some(by)) = (fact, by) {
            push_missing(alloc, fact, by, m, &mut out)?;
        }
    }
    Ok(out)
}

/// A flow, and what is missing.
const FLOWS: [(&str, &str); 21] = [
    ("", ""),
    ("|o>.", ""),
    ("0|o-0>.", ""),
    ("0|o-0>2;0|o>.", "2 0 1o"),
    ("|t>2,f>3;|o+1>3;1|o>.", "3 1 1f"),
    ("|t>2,f>3;|o+1>4;|o+1>4;1|o>.", ""),
    ("|o+1>2;|t>3,f>4;1|o-1>2;|o>.", "3 1 1o 2t 3o 2t"),
    ("|o+1>2,6>3;1|o>.;1|o>.", "3 1 1:6"),
    ("1 2|o>.", "1 1; 1 2"),
    ("|t>3,f>2;|o>3;3|o>.", "3 3 1t"),
    ("|t+3>3,f+3>2;|o-3>3;3|o>.", "3 3 1f 2o"),
    ("|o+1+10>2;10|o-1>3;10|o>.", "3 10 1o 2o"),
    ("|o+1+1=2>2;1=2|o-1>3;1=2|o>.", "3 1=2 1o 2o"),
    ("|o+1+1=2>2;1=3|o>.", "2 1=3 1o"),
    ("|o+1+10>2;10|o-10>3;1|o>.", ""),
    ("1|o>.", "1 1"),
    ("|t+1>2,f&>3;1|o>3;1 2|o>.", "3 2 1f"),
    ("|t+1>2,f+2&>2;1 2|o>.", "2 2 1t"),
    ("1|o>2;1 2|o>.", "1 1; 2 1 1o; 2 2 1o"),
    ("|o-1+1>2;1|o>.", ""),
    (
        "|t+1>2,f>5;|t>3,f>4;1|o-1>2;1|o>2;|o>.",
        "3 1 1t 2t 3o 2t; 4 1 1t 2t 3o 2f",
    ),
];

fn answer(alloc: Global, text: &str) -> Result<String, AllocError> {
    let flow = flow_of(alloc, text)?;
    let Some(missing) = missing_in(alloc, &flow, 4) else {
        return format!(in alloc; "not checked");
    };
    told(alloc, &missing)
}

#[test]
fn missing_facts_have_shortest_paths(rt: HostRuntime) -> Result<(), Fail> {
    let alloc = rt.alloc();
    for (text, want) in FLOWS {
        let said = answer(alloc, text)?;
        assert_eq!(rt; said.as_str(), want, "{text}");
    }
    Ok(())
}
