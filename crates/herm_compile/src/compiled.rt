//! What the compiler gives: a program with its image.
use herm_code::Image;
use herm_coerce::Coercions;
use herm_flow::Flow;
use herm_resolve::Program;
use herm_typestate::Labels;

/// A compiled program: its processes by number, of each its flow, what is held at each point of it and what each of its edges finalises;
/// and its image, which has its types.
#[derive(Drop)]
pub struct Compiled {
    pub program: Program,
    pub flows: Vec<Flow>,
    pub labels: Vec<Labels>,
    pub coercions: Vec<Coercions>,
    pub image: Image,
}
