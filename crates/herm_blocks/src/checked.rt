//! A process with what its check gives.
use herm_coerce::Coercions;
use herm_flow::Flow;
use herm_typed::TypedProcess;
use herm_typestate::Labels;

/// A process with what its check gives: its flow, the facts that are held at each point, and the paths that are dropped where it begins and
/// along each edge.
#[derive(Clone, Copy)]
pub struct CheckedProcess<'a> {
    pub process: &'a TypedProcess,
    pub flow: &'a Flow,
    pub labels: &'a Labels,
    pub coercions: &'a Coercions,
}
