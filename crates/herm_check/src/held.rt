//! Whether one fact is held behind an edge.
ghost use Rattle.std.specs.Prelude.{◌≡◌, map};
ghost use Rattle.herm_model.specs.Lists.{any_pass};
ghost use Rattle.herm_model.specs.Paths as model;
ghost use Rattle.herm_model.specs.ControlPaths.{held_after_edge};
ghost use Rattle.herm_types.specs.View.{path_view, fact_view};
ghost use Rattle.herm_flow.specs.View.{edge_view};

use herm_flow::Edge;
use herm_types::{Fact, Path};

/// Whether the second row begins with the first.
fn begins(first: &[u32], all: &[u32]) -> bool
    ensures { result ≡ model.is_at_or_below first.now all.now }
{
    let count = first.len();
    if all.len() < count {
        return false;
    }
    first == &all[..count]
}

pub fn is_same_path(a: &Path, b: &Path) -> bool
    ensures { result ≡ model.same_path (path_view a.now) (path_view b.now) }
{
    a.var == b.var && a.parts.as_slice() == b.parts.as_slice()
}

fn is_at_or_below(top: &Path, path: &Path) -> bool
    ensures { result ≡ model.is_at_or_below (path_view top.now) (path_view path.now) }
{
    top.var == path.var && begins(top.parts.as_slice(), path.parts.as_slice())
}

fn is_killed(kills: &[Path], path: &Path) -> bool
    ensures { result ≡ any_pass (λ p. model.is_at_or_below p (path_view path.now)) (map path_view kills.now) }
{
    for killed in kills {
        if is_at_or_below(killed, path) {
            return true;
        }
    }
    false
}

/// Whether the fact says that there is a value at the path.
fn is_value_at(fact: &Fact, path: &Path) -> bool
    ensures { result ≡ model.same_fact (model.init (path_view path.now)) (fact_view fact.now) }
{
    match fact {
        Fact::Init(other) => is_same_path(path, other),
        Fact::Case(_, _) => false,
    }
}

fn is_value_made(makes: &[Fact], path: &Path) -> bool
    ensures { result ≡ any_pass (model.same_fact (model.init (path_view path.now))) (map fact_view makes.now) }
{
    for made in makes {
        if is_value_at(made, path) {
            return true;
        }
    }
    false
}

/// Whether a value at the path is held behind the edge, where it is held before it or not.
pub fn is_value_held_behind(edge: &Edge, path: &Path, held: bool) -> bool
    ensures { result ≡ held_after_edge (edge_view edge.now) (model.init (path_view path.now)) held }
{
    if is_value_made(edge.makes(), path) {
        return true;
    }
    let killed = is_killed(edge.kills(), path);
    if killed {
        return false;
    }
    held
}
