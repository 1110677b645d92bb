//! A flow as a line of text. Between two points stands `; `. A point is its number, `/`, how many facts it needs, and its edges. An edge is a letter for its outcome,
//! `>`, and the place of the point to which it leads, `.` for the end, or `!` and a number for the end by an exception.
use herm_base::StmtNo;
use herm_flow::{Flow, OnwardFlow, Target};
use herm_typed::Outcome;
use std::alloc::{AllocError, Global};

type Put = Result<(), AllocError>;

fn put_number(alloc: Global, out: &mut String, letter: &str, number: u32) -> Put {
    let word = format!(in alloc; "{letter}{number}")?;
    out.push_str(word.as_str())?;
    Ok(())
}

fn put_outcome(alloc: Global, out: &mut String, outcome: Outcome) -> Put {
    match outcome {
        Outcome::Ok => out.push_str("o"),
        Outcome::True => out.push_str("t"),
        Outcome::False => out.push_str("f"),
        Outcome::Turn => out.push_str("u"),
        Outcome::Done => out.push_str("d"),
        Outcome::Component(c) => put_number(alloc, out, "c", c),
        Outcome::Arm(place) => put_number(alloc, out, "a", place),
        Outcome::Raised(e) => put_number(alloc, out, ":", e.0),
    }
}

fn put_target(alloc: Global, out: &mut String, to: Target) -> Put {
    match to {
        Target::Point(place) => put_number(alloc, out, "", place),
        Target::End => out.push_str("."),
        Target::EndBy(e) => put_number(alloc, out, "!", e.0),
    }
}

fn put_edge(alloc: Global, out: &mut String, outcome: Outcome, to: Target) -> Put {
    out.push_str(" ")?;
    put_outcome(alloc, out, outcome)?;
    out.push_str(">")?;
    put_target(alloc, out, to)?;
    Ok(())
}

/// The number of a point and how many facts it needs. Between it and the one before it stands `; `.
fn put_start(alloc: Global, out: &mut String, stmt: StmtNo, needs: usize) -> Put {
    if !out.is_empty() {
        out.push_str("; ")?;
    }
    let word = format!(in alloc; "{}/{needs}", stmt.0)?;
    out.push_str(word.as_str())?;
    Ok(())
}

/// A flow as a line.
pub fn line_of(alloc: Global, flow: &Flow) -> Result<String, AllocError> {
    let mut out = String::new(alloc);
    for point in &flow.points {
        put_start(alloc, &mut out, point.stmt, point.needs.len())?;
        for edge in &point.edges {
            put_edge(alloc, &mut out, edge.outcome, edge.to)?;
        }
    }
    Ok(out)
}

/// An onward flow as a line.
pub fn onward_line_of(alloc: Global, flow: &OnwardFlow) -> Result<String, AllocError> {
    let mut out = String::new(alloc);
    for point in &flow.points {
        put_start(alloc, &mut out, point.stmt, point.needs.len())?;
        for edge in &point.edges {
            put_edge(alloc, &mut out, edge.outcome, Target::Point(edge.to))?;
        }
    }
    Ok(out)
}
