//! What inport types list, closed and without repeats.
ghost use Rattle.std.specs.Prelude.{◌≡◌, ◌++◌, [], ◌∷◌, List, IfOk, OnOk, map, cond};
ghost use Rattle.herm_model.specs.Lists.{any_pass};
ghost use Rattle.herm_model.specs.Paths as model;
ghost use Rattle.herm_model.specs.Facts as facts;
ghost use Rattle.herm_types.specs.View.{fact_view, shape_view};
ghost use Rattle.herm_types.specs.Table.{shapes_view, AreDeclared};
ghost use Rattle.herm_types.specs.Messages.{closed_list, closed_list_of};

use crate::fact::{Fact, Path};
use crate::messages::push_with_prefixes;
use crate::shape::Shape;
use herm_base::{TypeNo, VarNo};
use indexmap::IndexSet;
use std::alloc::{AllocError, Global};

/// Whether a fact is in the list.
fn has_fact(list: &IndexSet<Fact>, fact: &Fact) -> bool
    ensures { result ≡ any_pass (model.same_fact (fact_view fact.now)) (map fact_view list.now.keys) }
{
    list.contains(fact)
}

/// Appends a fact that is not yet in the list.
fn push_new(list: &mut IndexSet<Fact>, fact: Fact) -> Result<(), AllocError>
    ensures { OnOk result (map fact_view list.new.keys ≡ map fact_view list.old.keys ++ cond (any_pass (model.same_fact (fact_view fact)) (map fact_view list.old.keys)) [] (fact_view fact ∷ [])) }
{
    list.insert(fact)?;
    Ok(())
}

/// Appends those of these facts that are not yet in the list.
fn push_each_new(list: &mut IndexSet<Fact>, more: Vec<Fact>) -> Result<(), AllocError>
    ensures { OnOk result ((before : List model.Fact) → map fact_view list.old.keys ≡ facts.without_repeats before → map fact_view list.new.keys ≡ facts.without_repeats (before ++ map fact_view more.items)) }
{
    for fact in more {
        push_new(list, fact)?;
    }
    Ok(())
}

/// Appends a listed fact and the facts before it in front, where they are not yet in the list. Where the fact is in the
/// list, those before it are.
fn push_closed(
    alloc: Global,
    shapes: &[Shape],
    message: TypeNo,
    fact: &Fact,
    list: &mut IndexSet<Fact>,
) -> Result<(), AllocError>
    ensures { OnOk result ((done : List model.Fact) → map fact_view list.old.keys ≡ closed_list (shapes_view shapes.now) message.0 done → map fact_view list.new.keys ≡ closed_list (shapes_view shapes.now) message.0 (done ++ fact_view fact.now ∷ [])) }
{
    if has_fact(list, fact) {
        return Ok(());
    }
    let mut more = Vec::new(alloc);
    push_with_prefixes(alloc, shapes, message, fact, &mut more)?;
    push_each_new(list, more)?;
    Ok(())
}

/// `init` of the message.
fn message_alone(alloc: Global) -> Result<IndexSet<Fact>, AllocError>
    ensures { IfOk result (λ list. map fact_view list.keys ≡ model.init (0 ∷ []) ∷ []) }
{
    let mut list = IndexSet::new(alloc);
    let parts = Vec::new(alloc);
    let var = VarNo(0);
    push_new(&mut list, Fact::Init(Path { var, parts }))?;
    Ok(list)
}

/// The facts of a list, in its order.
fn in_order(alloc: Global, list: IndexSet<Fact>) -> Result<Vec<Fact>, AllocError>
    ensures { IfOk result (λ v. v.items ≡ list.keys) }
{
    let mut facts = Vec::with_capacity(alloc, list.len())?;
    for fact in list {
        facts.push(fact)?;
    }
    Ok(facts)
}

/// `init` of the message and the listed facts, each behind those before it, without repeats.
fn closed(
    alloc: Global,
    shapes: &[Shape],
    message: TypeNo,
    listed: &[Fact],
) -> Result<Vec<Fact>, AllocError>
    ensures { IfOk result (λ v. map fact_view v.items ≡ closed_list (shapes_view shapes.now) message.0 (map fact_view listed.now)) }
{
    let mut list = message_alone(alloc)?;
    for fact in listed {
        push_closed(alloc, shapes, message, fact, &mut list)?;
    }
    let closed = in_order(alloc, list)?;
    Ok(closed)
}

/// What is closed of what a type lists; nothing of a type that is no inport type.
fn closed_of(alloc: Global, shapes: &[Shape], shape: &Shape) -> Result<Vec<Fact>, AllocError>
    ensures { IfOk result (λ v. map fact_view v.items ≡ closed_list_of (shapes_view shapes.now) (shape_view shape.now)) }
{
    match shape {
        Shape::Inport { message, facts } => {
            let closed = closed(alloc, shapes, *message, facts.as_slice())?;
            Ok(closed)
        }
        _ => Ok(Vec::new(alloc)),
    }
}

/// What is closed of what each type lists.
pub fn all_declared(alloc: Global, shapes: &[Shape]) -> Result<Vec<Vec<Fact>>, AllocError>
    ensures { IfOk result (λ v. AreDeclared shapes.now v.items) }
{
    let mut declared = Vec::with_capacity(alloc, shapes.len())?;
    for shape in shapes {
        let closed = closed_of(alloc, shapes, shape)?;
        declared.push(closed)?;
    }
    Ok(declared)
}
