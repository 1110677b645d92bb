//! The texts of facts and of hops.
ghost use Rattle.std.specs.Prelude.{◌≡◌, ◌++◌, option_map, IfOk, OnOk};
ghost use Rattle.herm_model.specs.Paths.{init, case};
ghost use Rattle.herm_types.specs.View.{path_view, fact_view};
ghost use Rattle.herm_typed.specs.View.{outcome_view};
ghost use Rattle.herm_check.specs.View.{hop_view};
ghost use Rattle.herm_words.specs.MissingFactWords.{steps_text, path_text, fact_text, outcome_text, hop_text, head_text};

use crate::names::{name_at, part_name, part_of, type_at, variable_name, variable_type};
use crate::sites::{Site, variant_of};
use herm_base::{TypeNo, decimal};
use herm_check::Hop;
use herm_typed::{Outcome, TypedProcess};
use herm_types::{Fact, Path, TypeTable};
use std::alloc::{AllocError, Global};

/// Appends the names of steps from a type on, each behind a dot.
fn push_steps(
    types: &TypeTable,
    t: Option<TypeNo>,
    steps: &[u32],
    out: &mut Vec<u8>,
) -> Result<(), AllocError>
    ensures { OnOk result (out.new.items ≡ out.old.items ++ steps_text types.now (option_map (λ t. t.0) t) steps.now) }
{
    match steps.split_first() {
        None => Ok(()),
        Some((step, rest)) => {
            out.extend_from_slice(b".")?;
            out.extend_from_slice(part_name(types, t, *step))?;
            push_steps(types, part_of(types, t, *step), rest, out)?;
            Ok(())
        }
    }
}

/// Appends the names of a path.
fn push_path(
    types: &TypeTable,
    p: &TypedProcess,
    path: &Path,
    out: &mut Vec<u8>,
) -> Result<(), AllocError>
    ensures { OnOk result (out.new.items ≡ out.old.items ++ path_text types.now p.now (path_view path.now)) }
{
    out.extend_from_slice(variable_name(p, path.var.0))?;
    let t = variable_type(p, path.var.0);
    push_steps(types, t, path.parts.as_slice(), out)?;
    Ok(())
}

fn push_init(
    types: &TypeTable,
    p: &TypedProcess,
    path: &Path,
    out: &mut Vec<u8>,
) -> Result<(), AllocError>
    ensures { OnOk result (out.new.items ≡ out.old.items ++ fact_text types.now p.now (init (path_view path.now))) }
{
    out.extend_from_slice(b"init(")?;
    push_path(types, p, path, out)?;
    out.extend_from_slice(b")")?;
    Ok(())
}

fn push_case(
    types: &TypeTable,
    p: &TypedProcess,
    path: &Path,
    component: u32,
    out: &mut Vec<u8>,
) -> Result<(), AllocError>
    ensures { OnOk result (out.new.items ≡ out.old.items ++ fact_text types.now p.now (case (path_view path.now) component)) }
{
    out.extend_from_slice(b"case(")?;
    push_path(types, p, path, out)?;
    out.extend_from_slice(b",")?;
    out.extend_from_slice(part_name(types, type_at(types, p, path), component))?;
    out.extend_from_slice(b")")?;
    Ok(())
}

/// Appends `init(PATH)` or `case(PATH,COMPONENT)`.
fn push_fact(
    types: &TypeTable,
    p: &TypedProcess,
    fact: &Fact,
    out: &mut Vec<u8>,
) -> Result<(), AllocError>
    ensures { OnOk result (out.new.items ≡ out.old.items ++ fact_text types.now p.now (fact_view fact.now)) }
{
    match fact {
        Fact::Init(path) => {
            push_init(types, p, path, out)?;
            Ok(())
        }
        Fact::Case(path, component) => {
            push_case(types, p, path, *component, out)?;
            Ok(())
        }
    }
}

/// Appends an outcome, of a `case` by the type of its variant.
fn push_outcome(
    types: &TypeTable,
    variant: Option<TypeNo>,
    outcome: Outcome,
    out: &mut Vec<u8>,
) -> Result<(), AllocError>
    ensures { OnOk result (out.new.items ≡ out.old.items ++ outcome_text types.now (option_map (λ t. t.0) variant) (outcome_view outcome)) }
{
    match outcome {
        Outcome::Ok => {
            out.extend_from_slice(b"ok")?;
            Ok(())
        }
        Outcome::True => {
            out.extend_from_slice(b"true")?;
            Ok(())
        }
        Outcome::False => {
            out.extend_from_slice(b"false")?;
            Ok(())
        }
        Outcome::Turn => {
            out.extend_from_slice(b"turn")?;
            Ok(())
        }
        Outcome::Done => {
            out.extend_from_slice(b"done")?;
            Ok(())
        }
        Outcome::Component(c) => {
            out.extend_from_slice(part_name(types, variant, c))?;
            Ok(())
        }
        Outcome::Arm(place) => {
            decimal(out, u64::from(place) + 1)?;
            Ok(())
        }
        Outcome::Raised(e) => {
            out.extend_from_slice(name_at(types.exceptions(), e.0))?;
            Ok(())
        }
    }
}

/// Appends a hop.
pub fn push_hop(
    types: &TypeTable,
    sites: &[Site],
    hop: &Hop,
    out: &mut Vec<u8>,
) -> Result<(), AllocError>
    ensures { OnOk result (out.new.items ≡ out.old.items ++ hop_text types.now sites.now (hop_view hop.now)) }
{
    out.extend_from_slice(b" ")?;
    decimal(out, u64::from(hop.stmt.0))?;
    out.extend_from_slice(b":")?;
    push_outcome(types, variant_of(sites, hop.stmt), hop.outcome, out)?;
    Ok(())
}

/// The words of refusals for a fact before the hops: `needs FACT by start`.
pub fn head_of(
    alloc: Global,
    types: &TypeTable,
    p: &TypedProcess,
    fact: &Fact,
) -> Result<Vec<u8>, AllocError>
    ensures { IfOk result (λ head. head.items ≡ head_text types.now p.now (fact_view fact.now)) }
{
    let mut out = Vec::new(alloc);
    out.extend_from_slice(b"needs ")?;
    push_fact(types, p, fact, &mut out)?;
    out.extend_from_slice(b" by start")?;
    Ok(out)
}
