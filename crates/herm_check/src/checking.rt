//! The typestate check of a flow.
ghost use Rattle.std.specs.Prelude.{◌≡◌, ◌<◌, ℕ, length, IfOk, IfErr};
ghost use Rattle.herm_model.specs.Targets.{node};
ghost use Rattle.herm_model.specs.ControlPaths.{IsReached};
ghost use Rattle.herm_model.specs.Labels.{AreExact};
ghost use Rattle.herm_model.specs.laws.FlowLaws.{EdgesDiffer};
ghost use Rattle.herm_flow.specs.OnwardView.{onward_flow_view};
ghost use Rattle.herm_check.specs.View.{labels_view};
ghost use Rattle.herm_check.specs.Labelled.{LeadThere};
ghost use Rattle.herm_check.specs.Faults.{IsFault, HasNoFault};

use crate::labels::labels_of;
use crate::missing::{Missing, lacking};
use herm_flow::OnwardFlow;
use herm_typestate::Labels;
use std::alloc::{AllocError, Global};

/// Why a flow is not accepted: the facts that are missing, or want of memory.
#[derive(Drop)]
pub enum CheckFault {
    Missing(Missing),
    Memory,
}

impl From<AllocError> for CheckFault {
    ghost use Rattle.herm_check.specs.declared.checking.CheckFault.TheVariants.{Memory};
    ghost use Rattle.std.specs.Prelude.{◌≡◌};

    ghost from_gives = { λ _ fault. fault ≡ Memory };

    fn from(_: AllocError) -> CheckFault {
        CheckFault::Memory
    }
}

/// Exactly the facts that hold at each point, where each fact that is needed holds; else the facts that are missing, each with a shortest path.
pub fn check(alloc: Global, flow: &OnwardFlow, vars: usize) -> Result<Labels, CheckFault>
    requires differ { EdgesDiffer (onward_flow_view flow.now) }
    requires there { LeadThere (onward_flow_view flow.now) }
    requires reached { (i : ℕ) → i < length flow.now.points.items → IsReached (onward_flow_view flow.now) (node i) }
    ensures many { IfOk result (λ labels. length labels.at.items ≡ length flow.now.points.items) }
    ensures exact { IfOk result (λ labels. AreExact (onward_flow_view flow.now) (labels_view labels)) }
    ensures accepted { IfOk result (λ labels. HasNoFault (onward_flow_view flow.now)) }
    ensures missing { IfErr result (λ fault. IsFault (onward_flow_view flow.now) fault) }
{
    let labels = labels_of(alloc, flow, vars)?;
    let missing = lacking(alloc, flow, &labels)?;
    let count = missing.facts.len();
    if count == 0 {
        return Ok(labels);
    }
    Err(CheckFault::Missing(missing))
}
