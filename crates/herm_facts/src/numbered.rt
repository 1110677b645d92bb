//! The numbers of the facts of a value and of its parts.
ghost use Rattle.std.specs.Prelude.{◌≡◌, [], ◌∷◌, ◌++◌, ℕ, List, length, map, OnOk, OnErr, ◌<◌, true};
ghost use Rattle.herm_model.specs.Lists.{IsIn};
ghost use Rattle.herm_model.specs.Paths.{is_at_or_below};
ghost use Rattle.herm_facts.specs.Numbers.{number_among, number_by, here_list, all_numbers, own_numbers, numbers_in, numbers_at, no_numbers, given, AreOnce, Appends};
ghost use Rattle.herm_facts.specs.declared.numbered.Numbered.{out-Numbered};

use std::alloc::{AllocError, Global};

/// The number of the fact that a value has this component.
#[derive(Clone, Copy)]
pub struct Known {
    pub component: u32,
    pub number: usize,
}

/// The numbers of the facts of a value: that it is here, which component it has, and those of its parts by their places.
#[derive(Drop)]
pub struct Numbered {
    pub here: Option<usize>,
    pub known: Vec<Known>,
    pub parts: Vec<Numbered>,
}

/// The tree without a number.
fn nothing_numbered(alloc: Global) -> Numbered
    ensures { (q : List ℕ) → numbers_in q result ≡ no_numbers }
{
    Numbered {
        here: None,
        known: Vec::new(alloc),
        parts: Vec::new(alloc),
    }
}

/// The number of a component.
fn number_among(known: &[Known], component: u32) -> Option<usize>
    ensures { result ≡ number_among component known.now }
{
    for one in known {
        if component == one.component {
            return Some(one.number);
        }
    }
    None
}

/// The tree's own number for a component, or for its value.
fn own_number(tree: &Numbered, component: Option<u32>) -> Option<usize>
    ensures { result ≡ number_by (own_numbers tree.now) component }
{
    match component {
        None => tree.here,
        Some(component) => number_among(tree.known.as_slice(), component),
    }
}

fn parts_of(tree: &Numbered) -> &[Numbered]
    ensures { result.now ≡ (out-Numbered tree.now).parts.items }
{
    tree.parts.as_slice()
}

/// The number for a component, or for the value, at the end of these steps.
pub fn number_at(trees: &[Numbered], at: u32, rest: &[u32], component: Option<u32>) -> Option<usize>
    ensures { result ≡ number_by (numbers_at trees.now (at ∷ rest.now)) component }
{
    let Some(tree) = trees.get(at as usize) else {
        return None;
    };
    match rest.split_first() {
        None => own_number(tree, component),
        Some((next, rest)) => number_at(parts_of(tree), *next, rest, component),
    }
}

/// Appends trees without numbers until there is one at the place.
fn reach(alloc: Global, trees: &mut Vec<Numbered>, at: u32) -> Result<(), AllocError>
    ensures kept { (q : List ℕ) → numbers_at trees.new.items q ≡ numbers_at trees.old.items q }
    ensures reached { OnOk result (at < length trees.new.items) }
{
    while trees.len() <= at as usize {
        trees.push(nothing_numbered(alloc))?;
    }
    Ok(())
}

/// Gives the tree a number for a component, or for its value.
fn give_own(tree: &mut Numbered, component: Option<u32>, number: usize) -> Result<(), AllocError>
    ensures ok { OnOk result ((q : List ℕ) → numbers_in q tree.new ≡ given [] component number q (numbers_in q tree.old)) }
    ensures err { OnErr result ((q : List ℕ) → numbers_in q tree.new ≡ numbers_in q tree.old) }
{
    match component {
        None => {
            tree.here = Some(number);
            Ok(())
        }
        Some(component) => {
            tree.known.push(Known { component, number })?;
            Ok(())
        }
    }
}

/// Gives the tree at the end of these steps a number for a component, or for its value.
pub fn give(
    alloc: Global,
    trees: &mut Vec<Numbered>,
    at: u32,
    rest: &[u32],
    component: Option<u32>,
    number: usize,
) -> Result<(), AllocError>
    ensures ok { OnOk result ((q : List ℕ) → numbers_at trees.new.items q ≡ given (at ∷ rest.now) component number q (numbers_at trees.old.items q)) }
    ensures err { OnErr result ((q : List ℕ) → numbers_at trees.new.items q ≡ numbers_at trees.old.items q) }
{
    reach(alloc, trees, at)?;
    let tree = &mut trees[at as usize];
    match rest.split_first() {
        None => {
            give_own(tree, component, number)?;
            Ok(())
        }
        Some((next, rest)) => {
            give(alloc, &mut tree.parts, *next, rest, component, number)?;
            Ok(())
        }
    }
}

/// Appends the number of a value, where it has one.
fn push_here(here: Option<usize>, out: &mut Vec<usize>) -> Result<(), AllocError>
    ensures { OnOk result (out.new.items ≡ out.old.items ++ here_list here) }
{
    match here {
        None => Ok(()),
        Some(number) => {
            out.push(number)?;
            Ok(())
        }
    }
}

/// Appends the numbers of the components.
fn push_known(known: &[Known], out: &mut Vec<usize>) -> Result<(), AllocError>
    ensures { OnOk result (out.new.items ≡ out.old.items ++ map (λ k. k.number) known.now) }
{
    for one in known {
        out.push(one.number)?;
    }
    Ok(())
}

/// Appends the tree's own numbers.
fn push_own(tree: &Numbered, out: &mut Vec<usize>) -> Result<(), AllocError>
    ensures { OnOk result (out.new.items ≡ out.old.items ++ all_numbers (own_numbers tree.now)) }
{
    push_here(tree.here, out)?;
    push_known(tree.known.as_slice(), out)?;
    Ok(())
}

/// Appends the numbers that stand in the tree.
#[cycle(walk)]
fn push_tree(tree: &Numbered, out: &mut Vec<usize>) -> Result<(), AllocError>
    ensures { OnOk result (Appends (AreOnce (λ q. numbers_in q tree.now)) (λ n. (q : List ℕ) × IsIn n (all_numbers (numbers_in q tree.now))) out.old.items out.new.items) }
{
    push_own(tree, out)?;
    push_trees(parts_of(tree), out)?;
    Ok(())
}

/// Appends the numbers that stand in the trees.
#[cycle(walk)]
fn push_trees(trees: &[Numbered], out: &mut Vec<usize>) -> Result<(), AllocError>
    ensures { OnOk result (Appends (AreOnce (numbers_at trees.now)) (λ n. (q : List ℕ) × IsIn n (all_numbers (numbers_at trees.now q))) out.old.items out.new.items) }
{
    for tree in trees {
        push_tree(tree, out)?;
    }
    Ok(())
}

/// Appends the numbers that stand at the end of these steps and below.
pub fn push_below(
    trees: &[Numbered],
    at: u32,
    rest: &[u32],
    out: &mut Vec<usize>,
) -> Result<(), AllocError>
    ensures { OnOk result (Appends (AreOnce (numbers_at trees.now)) (λ n. (q : List ℕ) × (is_at_or_below (at ∷ rest.now) q ≡ true) × IsIn n (all_numbers (numbers_at trees.now q))) out.old.items out.new.items) }
{
    let Some(tree) = trees.get(at as usize) else {
        return Ok(());
    };
    match rest.split_first() {
        None => {
            push_tree(tree, out)?;
            Ok(())
        }
        Some((next, rest)) => {
            push_below(parts_of(tree), *next, rest, out)?;
            Ok(())
        }
    }
}
