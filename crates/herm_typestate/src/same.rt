//! Whether two facts are the same.
ghost use Rattle.std.specs.Prelude.{◌≡◌};
ghost use Rattle.herm_model.specs.Paths as model;
ghost use Rattle.herm_types.specs.View.{path_view, fact_view};

use herm_types::{Fact, Path};

fn same_path(a: &Path, b: &Path) -> bool
    ensures { result ≡ model.same_path (path_view a.now) (path_view b.now) }
{
    a.var == b.var && a.parts.as_slice() == b.parts.as_slice()
}

/// Whether the two facts are the same.
pub fn same_fact(a: &Fact, b: &Fact) -> bool
    ensures { result ≡ model.same_fact (fact_view a.now) (fact_view b.now) }
{
    match a {
        Fact::Init(p) => match b {
            Fact::Init(q) => same_path(p, q),
            Fact::Case(_, _) => false,
        },
        Fact::Case(p, c) => match b {
            Fact::Init(_) => false,
            Fact::Case(q, d) => same_path(p, q) && *c == *d,
        },
    }
}
