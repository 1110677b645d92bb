//! The outcomes of a statement that lead on.
ghost use Rattle.std.specs.Prelude.{◌≡◌, ◌++◌, ◌∷◌, [], IfOk, OnOk, map, drop, filter};
ghost use Rattle.herm_typed.specs.View.{outcome_view};
ghost use Rattle.herm_flow.specs.View.{target_view, catch_view};
ghost use Rattle.herm_flow.specs.Edges.{an_exit, raised_in, exit_of, left_of, exits_from};
ghost use Rattle.herm_flow.specs.Listed.{exits_on, lead_view};

use crate::edges::{caught_at, exception_of};
use crate::flow::Target;
use crate::starts::Catch;
use herm_typed::Outcome;
use std::alloc::{AllocError, Global};

/// An outcome that leads to the point at a place.
#[derive(Clone, Copy)]
pub struct Lead {
    pub outcome: Outcome,
    pub to: u32,
}

/// Appends an outcome that leads there, where that is a point.
fn push_lead(outcome: Outcome, to: Target, found: &mut Vec<Lead>) -> Result<(), AllocError>
    ensures found { OnOk result (map lead_view found.new.items ≡ map lead_view found.old.items ++ filter exits_on (an_exit (outcome_view outcome) (target_view to) ∷ [])) }
{
    match to {
        Target::Point(to) => {
            found.push(Lead { outcome, to })?;
            Ok(())
        }
        Target::End => Ok(()),
        Target::EndBy(_) => Ok(()),
    }
}

/// Appends an outcome, where it leads on: an exception leads to its handler, a normal outcome to the first of the targets that are
/// left. How many targets are then taken.
fn push_exit(
    outcome: Outcome,
    leads: &[Target],
    taken: usize,
    catches: &[Catch],
    found: &mut Vec<Lead>,
) -> Result<usize, AllocError>
    ensures found { IfOk result (λ n. map lead_view found.new.items ≡ map lead_view found.old.items ++ filter exits_on (exit_of (outcome_view outcome) (raised_in (outcome_view outcome)) (map target_view (drop taken leads.now)) (map catch_view catches.now))) }
    ensures left { IfOk result (λ n. map target_view (drop n leads.now) ≡ left_of (raised_in (outcome_view outcome)) (map target_view (drop taken leads.now))) }
{
    let exception = exception_of(outcome);
    match exception {
        Some(e) => {
            let to = caught_at(catches, e);
            push_lead(outcome, to, found)?;
            Ok(taken)
        }
        None => {
            if taken >= leads.len() {
                return Ok(taken);
            }
            push_lead(outcome, leads[taken], found)?;
            Ok(taken + 1)
        }
    }
}

/// Those of these outcomes that lead on, of which the normal ones lead to these targets in their order.
pub fn leads_on(
    alloc: Global,
    outcomes: &[Outcome],
    leads: &[Target],
    catches: &[Catch],
) -> Result<Vec<Lead>, AllocError>
    ensures found { IfOk result (λ v. map lead_view v.items ≡ filter exits_on (exits_from (map outcome_view outcomes.now) (map target_view leads.now) (map catch_view catches.now))) }
{
    let mut found = Vec::new(alloc);
    let mut taken = 0;
    'each: for outcome in outcomes {
        let n = push_exit(*outcome, leads, taken, catches, &mut found)?;
        taken = n;
    }
    Ok(found)
}
