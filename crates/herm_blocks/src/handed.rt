//! What a node hands on to the next one.
ghost use Rattle.std.specs.Prelude.{◌≡◌, ◌++◌, ◌∷◌, [], ◌||◌, map, filter, not, cond, IfOk, OnOk};
ghost use Rattle.herm_model.specs.Lists.{any_pass};
ghost use Rattle.herm_model.specs.Paths as model;
ghost use Rattle.herm_types.specs.View.{path_view, fact_view};
ghost use Rattle.herm_flow.specs.View.{edge_view};
ghost use Rattle.herm_blocks.specs.Scopes.{behind_edge, handed_by};

use crate::onward::is_ok;
use herm_flow::Edge;
use herm_fronts::paths::{copy_fact, push_facts};
use herm_types::{Fact, Path};
use std::alloc::{AllocError, Global};

/// Whether the second row begins with the first.
fn begins(first: &[u32], all: &[u32]) -> bool
    ensures { result ≡ model.is_at_or_below first.now all.now }
{
    let count = first.len();
    if all.len() < count {
        return false;
    }
    first == &all[..count]
}

fn is_at_or_below(top: &Path, path: &Path) -> bool
    ensures { result ≡ model.is_at_or_below (path_view top.now) (path_view path.now) }
{
    top.var == path.var && begins(top.parts.as_slice(), path.parts.as_slice())
}

fn path_of(fact: &Fact) -> &Path
    ensures { path_view result.now ≡ model.path_of (fact_view fact.now) }
{
    match fact {
        Fact::Init(path) => path,
        Fact::Case(path, _) => path,
    }
}

/// Whether a path lies at or below one of these.
fn is_killed(kills: &[Path], path: &Path) -> bool
    ensures { result ≡ any_pass (λ p. model.is_at_or_below p (path_view path.now)) (map path_view kills.now) }
{
    'kills: for killed in kills {
        if is_at_or_below(killed, path) {
            return true;
        }
    }
    false
}

/// Appends a fact, where these paths leave it.
fn push_one(
    alloc: Global,
    fact: &Fact,
    kills: &[Path],
    out: &mut Vec<Fact>,
) -> Result<(), AllocError>
    ensures { OnOk result (map fact_view out.new.items ≡ map fact_view out.old.items ++ filter (λ f. not (any_pass (λ p. model.is_at_or_below p (model.path_of f)) (map path_view kills.now))) (fact_view fact.now ∷ [])) }
{
    if is_killed(kills, path_of(fact)) {
        return Ok(());
    }
    let copy = copy_fact(alloc, fact)?;
    out.push(copy)?;
    Ok(())
}

/// Appends the facts whose paths these leave.
fn push_left(
    alloc: Global,
    facts: &[Fact],
    kills: &[Path],
    out: &mut Vec<Fact>,
) -> Result<(), AllocError>
    ensures { OnOk result (map fact_view out.new.items ≡ map fact_view out.old.items ++ filter (λ f. not (any_pass (λ p. model.is_at_or_below p (model.path_of f)) (map path_view kills.now))) (map fact_view facts.now)) }
{
    'facts: for fact in facts {
        push_one(alloc, fact, kills, out)?;
    }
    Ok(())
}

/// What an edge hands on.
fn behind_edge(alloc: Global, edge: &Edge, facts: &[Fact]) -> Result<Vec<Fact>, AllocError>
    ensures { IfOk result (λ v. map fact_view v.items ≡ behind_edge (edge_view edge.now) (map fact_view facts.now)) }
{
    let mut out = Vec::with_capacity(alloc, facts.len())?;
    push_facts(alloc, edge.makes(), &mut out)?;
    push_left(alloc, facts, edge.kills(), &mut out)?;
    Ok(out)
}

/// What a node with these edges and facts hands on by `ok`; where it has no such edge, all of them.
fn handed_on(alloc: Global, edges: &[Edge], facts: &[Fact]) -> Result<Vec<Fact>, AllocError>
    ensures { IfOk result (λ v. map fact_view v.items ≡ handed_by (map edge_view edges.now) (map fact_view facts.now)) }
{
    'edges: for edge in edges {
        if is_ok(edge.outcome) {
            let out = behind_edge(alloc, edge, facts)?;
            return Ok(out);
        }
    }
    let mut out = Vec::with_capacity(alloc, facts.len())?;
    push_facts(alloc, facts, &mut out)?;
    Ok(out)
}

/// The same, where no edge leads to the next node; where one does, the facts there are those of its label, and nothing is handed on.
pub fn handed_unless(
    alloc: Global,
    led: bool,
    edges: &[Edge],
    facts: &[Fact],
) -> Result<Vec<Fact>, AllocError>
    ensures { IfOk result (λ v. map fact_view v.items ≡ cond led [] (handed_by (map edge_view edges.now) (map fact_view facts.now))) }
{
    if led {
        return Ok(Vec::new(alloc));
    }
    let out = handed_on(alloc, edges, facts)?;
    Ok(out)
}
