//! The nodes of a process: their forms, with what its flow says of each.
ghost use Rattle.std.specs.Prelude.{◌≡◌, map, length, IfOk};
ghost use Rattle.herm_fronts.specs.Frames.{kinds};
ghost use Rattle.herm_blocks.specs.Seen.{seen_node, seen_nodes};

use herm_base::TypeNo;
use herm_flow::Point;
use herm_typed::{TypedForm, TypedVar};
use std::alloc::{AllocError, Global};

/// A node: its form, and what its flow says of it.
#[derive(Clone, Copy)]
pub struct Node<'a> {
    pub form: &'a TypedForm,
    pub point: &'a Point,
}

/// The types of variables.
pub fn types_of(alloc: Global, vars: &[TypedVar]) -> Result<Vec<TypeNo>, AllocError>
    ensures types { IfOk result (λ v. kinds v.items ≡ map (λ x. x.of.0) vars.now) }
{
    let mut found = Vec::with_capacity(alloc, vars.len())?;
    'vars: for x in vars {
        found.push(x.of)?;
    }
    Ok(found)
}

/// The nodes of these forms, in order.
pub fn nodes_of<'a>(
    alloc: Global,
    forms: &[&'a TypedForm],
    points: &'a [Point],
) -> Result<Vec<Node<'a>>, AllocError>
    requires many { length forms.now ≡ length points.now }
    ensures nodes { IfOk result (λ v. map seen_node v.items ≡ seen_nodes (map (λ f. f.now) forms.now) points.now) }
{
    let mut found = Vec::with_capacity(alloc, points.len())?;
    'points: for i in 0..points.len() {
        found.push(Node {
            form: forms[i],
            point: &points[i],
        })?;
    }
    Ok(found)
}

/// The numbers of the nodes' statements.
pub fn numbers_of(alloc: Global, points: &[Point]) -> Result<Vec<u32>, AllocError>
    ensures numbers { IfOk result (λ v. v.items ≡ map (λ p. p.stmt.0) points.now) }
{
    let mut found = Vec::with_capacity(alloc, points.len())?;
    'points: for point in points {
        found.push(point.stmt.0)?;
    }
    Ok(found)
}
