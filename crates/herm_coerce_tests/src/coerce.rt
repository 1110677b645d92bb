//! Rows by hand. A flow is its points with `;` between, a point its edges with `,` between. An edge is a letter for its outcome (`o`, `t` or `f`), facts
//! that it makes behind `+`, paths that it takes away behind `-`, and behind `>` the number of the point to which it leads, `.` for the
//! end or `!` for an end by an exception. Labels are the facts of each point with `;` between. A fact is a word of digits, as `0` for `init` of variable 0,
//! `10` for its part 0, `1=2` for a component. Coercions are the paths of the beginning, `|`, and those of each edge.
use herm_base::{ExcNo, StmtNo, VarNo};
use herm_coerce::{Coercions, coerce};
use herm_flow::{Change, Edge, Flow, Point, Target};
use herm_typed::Outcome;
use herm_types::{Fact, Path};
use herm_typestate::{Labels, State};
use std::alloc::{AllocError, Global};
use std::rc::Rc;
use std::test::Fail;

fn digit(byte: u8) -> u32 {
    u32::from(byte.saturating_sub(b'0'))
}

fn path_of(alloc: Global, word: &[u8]) -> Result<Path, AllocError> {
    let mut parts = Vec::new(alloc);
    let mut var = 0;
    for (i, byte) in word.iter().enumerate() {
        if i == 0 {
            var = digit(*byte);
        } else {
            parts.push(digit(*byte))?;
        }
    }
    Ok(Path {
        var: VarNo(var),
        parts,
    })
}

fn fact_of(alloc: Global, word: &[u8]) -> Result<Fact, AllocError> {
    match word {
        [path @ .., b'=', component] => {
            let path = path_of(alloc, path)?;
            Ok(Fact::Case(path, digit(*component)))
        }
        _ => {
            let path = path_of(alloc, word)?;
            Ok(Fact::Init(path))
        }
    }
}

fn outcome_of(letter: u8) -> Outcome {
    match letter {
        b'o' => Outcome::Ok,
        b't' => Outcome::True,
        _ => Outcome::False,
    }
}

fn target_of(letter: u8) -> Target {
    match letter {
        b'.' => Target::End,
        b'!' => Target::EndBy(ExcNo(1)),
        _ => Target::Point(digit(letter).saturating_sub(1)),
    }
}

fn push_change(
    alloc: Global,
    change: &mut Change,
    sign: u8,
    word: &[u8],
) -> Result<(), AllocError> {
    if sign == b'+' {
        let fact = fact_of(alloc, word)?;
        change.makes.push(fact)?;
    }
    if sign == b'-' {
        let path = path_of(alloc, word)?;
        change.kills.push(path)?;
    }
    Ok(())
}

fn edge_of(alloc: Global, text: &[u8]) -> Result<Edge, AllocError> {
    let mut outcome = Outcome::Ok;
    let mut to = Target::End;
    let mut change = Change {
        makes: Vec::new(alloc),
        kills: Vec::new(alloc),
    };
    let mut sign = b'?';
    let mut word: Vec<u8> = Vec::new(alloc);
    for byte in text {
        if sign == b'?' {
            outcome = outcome_of(*byte);
            sign = b' ';
        } else if sign == b'>' {
            to = target_of(*byte);
        } else if *byte == b'+' || *byte == b'-' || *byte == b'>' {
            push_change(alloc, &mut change, sign, word.as_slice())?;
            sign = *byte;
            word.clear();
        } else {
            word.push(*byte)?;
        }
    }
    let change = Rc::new(alloc, change)?;
    Ok(Edge {
        outcome,
        change,
        to,
    })
}

fn flow_of(alloc: Global, text: &str) -> Result<Flow, AllocError> {
    let mut points = Vec::new(alloc);
    let mut number = 1;
    for point in text.split(';') {
        let mut edges = Vec::new(alloc);
        for word in point.split(',') {
            edges.push(edge_of(alloc, word.as_bytes())?)?;
        }
        let needs = Vec::new(alloc);
        let stmt = StmtNo(number);
        points.push(Point { stmt, needs, edges })?;
        number = number.saturating_add(1);
    }
    Ok(Flow { points })
}

fn state_of(alloc: Global, text: &str) -> Result<State, AllocError> {
    let mut state = State::empty(alloc, 2)?;
    for word in text.split_whitespace() {
        let fact = fact_of(alloc, word.as_bytes())?;
        state.make(alloc, &fact)?;
    }
    Ok(state)
}

fn labels_of(alloc: Global, text: &str) -> Result<Labels, AllocError> {
    let mut at = Vec::new(alloc);
    for word in text.split(';') {
        at.push(state_of(alloc, word)?)?;
    }
    Ok(Labels { at })
}

fn push_paths(alloc: Global, paths: &[Path], out: &mut String) -> Result<(), AllocError> {
    for (i, path) in paths.iter().enumerate() {
        if i != 0 {
            out.push(' ')?;
        }
        let var = format!(in alloc; "{}", path.var.0)?;
        out.push_str(var.as_str())?;
        for part in &path.parts {
            let step = format!(in alloc; "{part}")?;
            out.push_str(step.as_str())?;
        }
    }
    Ok(())
}

fn push_edges(alloc: Global, edges: &[Vec<Path>], out: &mut String) -> Result<(), AllocError> {
    for (i, paths) in edges.iter().enumerate() {
        if i != 0 {
            out.push(',')?;
        }
        push_paths(alloc, paths.as_slice(), out)?;
    }
    Ok(())
}

fn told(alloc: Global, coercions: &Coercions) -> Result<String, AllocError> {
    let mut out = String::new(alloc);
    push_paths(alloc, coercions.entry.as_slice(), &mut out)?;
    out.push('|')?;
    for (i, edges) in coercions.at.iter().enumerate() {
        if i != 0 {
            out.push(';')?;
        }
        push_edges(alloc, edges.as_slice(), &mut out)?;
    }
    Ok(out)
}

/// A flow, its labels, and what is finalised.
const FLOWS: [(&str, &str, &str); 14] = [
    ("o>.", "0", "|0"),
    ("o>.", "", "0|"),
    ("o>.", "1", "0|1"),
    ("o-0>2;o>.", "0;", "|;"),
    (
        "o+1+10+11>2;t>3,f>4;o+2>4;o-1>.",
        "0;0 1 10 11;0 1 10 11;0 1 10 11",
        "|;,;2;0",
    ),
    ("t>2,f>3;o+1>1;o>.", "0;0;0", "|,;1;0"),
    ("o+1>!", "0", "|0 1"),
    ("o+3+2+1+10>2;o>.", "0;0 1 3", "|10 2;0 1 3"),
    ("o+1>2;o+2>.", "0", "|0 1;2"),
    ("o>9", "0", "|0"),
    ("o-1+1>2;o>.", "0 1;0", "|1;0"),
    ("o+1+1=2>2;o-1>.", "0;0 1", "|;0"),
    ("t+1>2,f+2>2;o>.", "0;0", "|1,2;0"),
    ("o-1>2;o>.", "0 1 10;0 1 10", "|;0 1"),
];

#[test]
fn edges_finalise_their_excess(rt: HostRuntime) -> Result<(), Fail> {
    let alloc = rt.alloc();
    for (text, facts, want) in FLOWS {
        let flow = flow_of(alloc, text)?;
        let labels = labels_of(alloc, facts)?;
        let said = told(alloc, &coerce(alloc, &flow, &labels)?)?;
        assert_eq!(rt; said.as_str(), want, "{text} with {facts}");
    }
    Ok(())
}

#[test]
fn a_process_without_statements_drops_its_port(rt: HostRuntime) -> Result<(), Fail> {
    let alloc = rt.alloc();
    let points = Vec::new(alloc);
    let labels = labels_of(alloc, "0")?;
    let said = told(alloc, &coerce(alloc, &Flow { points }, &labels)?)?;
    assert_eq!(rt; said.as_str(), "0|");
    Ok(())
}
