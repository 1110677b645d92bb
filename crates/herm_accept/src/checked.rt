//! What the check finds of a process.
ghost use Rattle.std.specs.Prelude.{◌≡◌, length, IfOk, IfErr};
ghost use Rattle.herm_model.specs.ControlPaths.{flow_of};
ghost use Rattle.herm_model.specs.Labels.{AreExact};
ghost use Rattle.herm_typed.specs.View.{typed_process_view};
ghost use Rattle.herm_check.specs.View.{labels_view};
ghost use Rattle.herm_check.specs.Faults.{IsFault, HasNoFault};
ghost use Rattle.herm_accept.specs.Judged.{IsKnown};
ghost use Rattle.herm_accept.specs.Onward.{IsOnwardReady};

use herm_check::{CheckFault, check};
use herm_flow::{OnwardFlow, onward_flow_of};
use herm_typed::TypedProcess;
use herm_types::TypeTable;
use herm_typestate::Labels;
use std::alloc::{AllocError, Global};

/// An onward flow of a process, ready for the check.
fn onward(alloc: Global, types: &TypeTable, p: &TypedProcess) -> Result<OnwardFlow, AllocError>
    requires { IsKnown types.now p.now }
    ensures { IfOk result (λ f. IsOnwardReady types.now.shapes (typed_process_view p.now) f) }
{
    let flow = onward_flow_of(alloc, types, p)?;
    Ok(flow)
}

/// Exactly the facts that hold at each point of the flow of a process, where each fact that is needed holds; else the facts that are
/// missing, each with a shortest path. They are found by an onward flow, which is in memory no longer than this takes.
pub fn check_process(
    alloc: Global,
    types: &TypeTable,
    p: &TypedProcess,
) -> Result<Labels, CheckFault>
    requires { IsKnown types.now p.now }
    ensures many { IfOk result (λ labels. length labels.at.items ≡ length (flow_of types.now.shapes (typed_process_view p.now)).points) }
    ensures exact { IfOk result (λ labels. AreExact (flow_of types.now.shapes (typed_process_view p.now)) (labels_view labels)) }
    ensures accepted { IfOk result (λ labels. HasNoFault (flow_of types.now.shapes (typed_process_view p.now))) }
    ensures missing { IfErr result (λ fault. IsFault (flow_of types.now.shapes (typed_process_view p.now)) fault) }
{
    let flow = onward(alloc, types, p)?;
    check(alloc, &flow, p.vars.len())
}
