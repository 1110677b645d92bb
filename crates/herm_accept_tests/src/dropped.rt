//! What coercions of an accepted program hold becomes lines of text.
use crate::answer::put_bytes;
use crate::meant::{Meant, acceptance_of, meaning_of};
use herm_accept::{AcceptFault, Accepted};
use herm_base::StmtNo;
use herm_check::{Hop, Link, Search, Visit};
use herm_facts::FactSet;
use herm_flow::{Edge, Point};
use herm_types::{Fact, Path};
use herm_words::{MissingFact, lost_of, paths_of, sites_of};
use std::alloc::{AllocError, Global};
use std::rc::Rc;

type Put = Result<(), AllocError>;

/// Appends a line: words of a refusal from their path on, without the brackets around it.
fn put_words(out: &mut String, words: &[u8]) -> Put {
    out.push_str("\n ")?;
    let mut is_first = true;
    for piece in words.split(|byte| *byte == b'(' || *byte == b')') {
        if !is_first {
            put_bytes(out, piece)?;
        }
        is_first = false;
    }
    Ok(())
}

/// A visit that is reached by a link, or by none where the process begins. Of its place nothing counts.
fn visit_by(last: Option<Link>) -> Visit {
    Visit {
        point: 0,
        held: false,
        facts: FactSet::none(),
        depth: 0,
        last,
    }
}

/// The fact that a path has a value.
fn value_of(alloc: Global, path: &Path) -> Result<Fact, AllocError> {
    let parts = Vec::from_slice(alloc, path.parts.as_slice())?;
    Ok(Fact::Init(Path {
        var: path.var,
        parts,
    }))
}

/// A search with a visit where the process begins, and one behind a hop.
fn search_of(alloc: Global, by: Option<Hop>) -> Result<Search, AllocError> {
    let mut visits = Vec::new(alloc);
    visits.push(visit_by(None))?;
    if let Some(hop) = by {
        visits.push(visit_by(Some(Link { from: 0, hop })))?;
    }
    Ok(Search {
        visits,
        seen: Vec::new(alloc),
        places: Vec::new(alloc),
    })
}

/// Appends a line: a path, and the hop behind which it is finalised, if it is not where the process begins.
fn put_drop(alloc: Global, meant: &Meant, path: &Path, by: Option<Hop>, out: &mut String) -> Put {
    let Some(process) = meant.program.processes.first() else {
        return Ok(());
    };
    let sites = sites_of(alloc, process)?;
    let lost = lost_of(alloc, &meant.types, process, value_of(alloc, path)?)?;
    let search = search_of(alloc, by)?;
    let paths = paths_of(alloc, &meant.types, sites.as_slice(), search)?;
    let dropped = MissingFact {
        stmt: StmtNo(0),
        lost: Rc::new(alloc, lost)?,
        paths: Rc::new(alloc, paths)?,
        place: usize::from(by.is_some()),
    };
    put_words(out, dropped.words(alloc)?.bytes())
}

fn put_edge(
    alloc: Global,
    meant: &Meant,
    stmt: StmtNo,
    edge: &Edge,
    paths: &[Path],
    out: &mut String,
) -> Put {
    for path in paths {
        let hop = Hop {
            stmt,
            outcome: edge.outcome,
        };
        put_drop(alloc, meant, path, Some(hop), out)?;
    }
    Ok(())
}

fn put_point(
    alloc: Global,
    meant: &Meant,
    point: &Point,
    edges: &[Vec<Path>],
    out: &mut String,
) -> Put {
    for (edge, paths) in point.edges.iter().zip(edges.iter()) {
        put_edge(alloc, meant, point.stmt, edge, paths.as_slice(), out)?;
    }
    Ok(())
}

/// The lines of the first process.
fn put_accepted(alloc: Global, meant: &Meant, accepted: &Accepted, out: &mut String) -> Put {
    let (Some(flow), Some(coercions)) = (accepted.flows.first(), accepted.coercions.first()) else {
        return Ok(());
    };
    for path in &coercions.entry {
        put_drop(alloc, meant, path, None, out)?;
    }
    for (point, edges) in flow.points.iter().zip(coercions.at.iter()) {
        put_point(alloc, meant, point, edges.as_slice(), out)?;
    }
    Ok(())
}

/// What the edges of the first process of a source text finalise, a line for each path, where it is accepted.
pub fn drops_for(alloc: Global, source: &str) -> Result<String, AllocError> {
    let mut text = String::new(alloc);
    let Some(meant) = meaning_of(alloc, source)? else {
        text.push_str("no program")?;
        return Ok(text);
    };
    let found = acceptance_of(alloc, &meant);
    match &found {
        Ok(accepted) => put_accepted(alloc, &meant, accepted, &mut text)?,
        Err(AcceptFault::Missing(_)) => text.push_str("not accepted")?,
        Err(AcceptFault::Memory) => return Err(AllocError),
    }
    Ok(text)
}
