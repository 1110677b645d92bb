//! What is known of a value and of its parts.
ghost use Rattle.std.specs.Prelude.{◌≡◌, [], ◌∷◌, ◌&&◌, ◌||◌, not, false, ℕ, List, length, IfOk, OnOk, OnErr, IsTrue, ◌≤◌, ◌<◌, nat_eq, true};
ghost use Rattle.herm_model.specs.Paths.{is_at_or_below};
ghost use Rattle.herm_typestate.specs.Trees.{has_mark, is_marked, same_mark, tree_has, is_mark_of, IsWithin, IsBeyond, Tells};
ghost use Rattle.herm_model.specs.Lists.{any_pass, all_pass};
ghost use Rattle.herm_typestate.specs.Small.{is_step};
ghost use Rattle.herm_typestate.specs.declared.tree.Tree.{out-Tree};
ghost use Rattle.herm_typestate.specs.declared.tree.Mark.{Mark as Sign};
ghost use Rattle.herm_typestate.specs.declared.tree.Mark.TheVariants.{Here as here};

use std::alloc::{AllocError, Global};

/// What a fact says of its path: that there is a value, or which component the value has.
#[derive(Clone, Copy)]
pub enum Mark {
    Here,
    Component(u32),
}

/// What is known of a value: whether it is here, the components that it is known to have, and what is known of its
/// parts by their places. Parts behind the last one have no marks.
#[derive(Drop)]
pub struct Tree {
    pub here: bool,
    pub known: Vec<u32>,
    pub parts: Vec<Tree>,
}

/// The tree without a mark.
pub fn nothing_known(alloc: Global) -> Tree
    ensures { (m : Sign) (p : List ℕ) → tree_has m p result ≡ false }
{
    Tree {
        here: false,
        known: Vec::new(alloc),
        parts: Vec::new(alloc),
    }
}

/// Whether the tree itself has the mark.
pub fn has(tree: &Tree, mark: Mark) -> bool
    ensures { result ≡ is_marked tree.now mark }
{
    match mark {
        Mark::Here => tree.here,
        Mark::Component(component) => tree.known.as_slice().contains(&component),
    }
}

/// Whether the tree at the end of these steps has the mark.
pub fn holds(trees: &[Tree], at: u32, rest: &[u32], mark: Mark) -> bool
    ensures { result ≡ has_mark trees.now mark (at ∷ rest.now) }
{
    let Some(tree) = trees.get(at as usize) else {
        return false;
    };
    match rest.split_first() {
        None => has(tree, mark),
        Some((next, rest)) => holds(tree.parts.as_slice(), *next, rest, mark),
    }
}

/// Takes every mark of the tree.
fn forget(tree: &mut Tree)
    ensures { (m : Sign) (p : List ℕ) → tree_has m p tree.new ≡ false }
{
    tree.here = false;
    tree.known.clear();
    tree.parts.clear();
}

/// Takes the marks at the end of these steps and below.
pub fn kill(trees: &mut Vec<Tree>, at: u32, rest: &[u32])
    ensures { (m : Sign) (q : List ℕ) → has_mark trees.new.items m q ≡ (not (is_at_or_below (at ∷ rest.now) q) && has_mark trees.old.items m q) }
{
    let at = at as usize;
    if at >= trees.len() {
        return;
    }
    let tree = &mut trees[at];
    match rest.split_first() {
        None => forget(tree),
        Some((next, rest)) => kill(&mut tree.parts, *next, rest),
    }
}

/// Makes room for the trees up to a place and no more, where there is none yet.
fn make_room(trees: &mut Vec<Tree>, at: u32) -> Result<(), AllocError>
    ensures { trees.new.items ≡ trees.old.items }
{
    if trees.is_empty() {
        trees.reserve_exact(at as usize + 1)?;
    }
    Ok(())
}

/// Appends trees without marks until there is one at the place.
fn reach(alloc: Global, trees: &mut Vec<Tree>, at: u32) -> Result<(), AllocError>
    ensures kept { (m : Sign) (q : List ℕ) → has_mark trees.new.items m q ≡ has_mark trees.old.items m q }
    ensures reached { OnOk result (at < length trees.new.items) }
{
    make_room(trees, at)?;
    while trees.len() <= at as usize {
        trees.push(nothing_known(alloc))?;
    }
    Ok(())
}

/// Adds the component to those that are known.
fn know(known: &mut Vec<u32>, component: u32) -> Result<(), AllocError>
    ensures ok { OnOk result ((c : ℕ) → any_pass (nat_eq c) known.new.items ≡ (nat_eq c component || any_pass (nat_eq c) known.old.items)) }
    ensures err { OnErr result (known.new.items ≡ known.old.items) }
{
    if known.as_slice().contains(&component) {
        return Ok(());
    }
    known.push(component)?;
    Ok(())
}

/// Gives the tree the mark.
fn set(tree: &mut Tree, mark: Mark) -> Result<(), AllocError>
    ensures ok { OnOk result ((m : Sign) (q : List ℕ) → tree_has m q tree.new ≡ (is_mark_of [] mark m q || tree_has m q tree.old)) }
    ensures err { OnErr result ((m : Sign) (q : List ℕ) → tree_has m q tree.new ≡ tree_has m q tree.old) }
{
    match mark {
        Mark::Here => {
            tree.here = true;
            Ok(())
        }
        Mark::Component(component) => {
            know(&mut tree.known, component)?;
            Ok(())
        }
    }
}

/// Gives the tree at the end of these steps the mark.
pub fn make(
    alloc: Global,
    trees: &mut Vec<Tree>,
    at: u32,
    rest: &[u32],
    mark: Mark,
) -> Result<(), AllocError>
    ensures ok { OnOk result ((m : Sign) (q : List ℕ) → has_mark trees.new.items m q ≡ (is_mark_of (at ∷ rest.now) mark m q || has_mark trees.old.items m q)) }
    ensures err { OnErr result ((m : Sign) (q : List ℕ) → has_mark trees.new.items m q ≡ has_mark trees.old.items m q) }
    ensures steps { all_pass is_step (at ∷ rest.now) ≡ true }
{
    reach(alloc, trees, at)?;
    let tree = &mut trees[at as usize];
    match rest.split_first() {
        None => {
            set(tree, mark)?;
            Ok(())
        }
        Some((next, rest)) => {
            make(alloc, &mut tree.parts, *next, rest, mark)?;
            Ok(())
        }
    }
}

/// The same numbers. Where there are none they take no memory.
pub fn copy_numbers(alloc: Global, numbers: &[u32]) -> Result<Vec<u32>, AllocError>
    ensures { IfOk result (λ copy. copy.items ≡ numbers.now) }
{
    if numbers.is_empty() {
        return Ok(Vec::new(alloc));
    }
    let copy = Vec::from_slice(alloc, numbers)?;
    Ok(copy)
}

/// Whether at most a value is known, and nothing of its parts.
fn is_leaf(tree: &Tree) -> bool
    ensures known { IsTrue result → (out-Tree tree.now).known.items ≡ [] }
    ensures parts { IsTrue result → (out-Tree tree.now).parts.items ≡ [] }
{
    tree.known.is_empty() && tree.parts.is_empty()
}

/// Copies of the trees. Those without components and parts take no memory of their own.
pub fn copy(alloc: Global, trees: &[Tree]) -> Result<Vec<Tree>, AllocError>
    ensures { IfOk result (λ copies. (m : Sign) (q : List ℕ) → has_mark copies.items m q ≡ has_mark trees.now m q) }
{
    let mut copies = Vec::with_capacity(alloc, trees.len())?;
    for tree in trees {
        if is_leaf(tree) {
            copies.push(Tree {
                here: tree.here,
                known: Vec::new(alloc),
                parts: Vec::new(alloc),
            })?;
            continue;
        }
        let known = copy_numbers(alloc, tree.known.as_slice())?;
        let parts = copy(alloc, tree.parts.as_slice())?;
        copies.push(Tree {
            here: tree.here,
            known,
            parts,
        })?;
    }
    Ok(copies)
}

/// Whether the one list has the component.
fn is_among(known: &[u32], component: u32) -> bool
    ensures { result ≡ any_pass (nat_eq component) known.now }
{
    known.contains(&component)
}

/// Keeps the components that the others have too.
fn keep_common(known: &mut Vec<u32>, others: &[u32])
    ensures { (c : ℕ) → any_pass (nat_eq c) known.new.items ≡ (any_pass (nat_eq c) known.old.items && any_pass (nat_eq c) others.now) }
{
    known.retain(|c| is_among(others, *c));
}

/// Keeps the tree's own marks that the other tree has too.
fn meet_marks(tree: &mut Tree, other: &Tree)
    ensures marks { (m : Sign) → is_marked tree.new m ≡ (is_marked tree.old m && is_marked other.now m) }
    ensures parts { (out-Tree tree.new).parts ≡ (out-Tree tree.old).parts }
{
    tree.here = tree.here && other.here;
    keep_common(&mut tree.known, other.known.as_slice());
}

/// Keeps the marks that the other trees have too.
pub fn meet(others: &[Tree], trees: &mut Vec<Tree>)
    ensures { (m : Sign) (q : List ℕ) → has_mark trees.new.items m q ≡ (has_mark trees.old.items m q && has_mark others.now m q) }
{
    trees.truncate(others.len());
    for i in 0..trees.len() {
        let tree = &mut trees[i];
        let other = &others[i];
        meet_marks(tree, other);
        meet(other.parts.as_slice(), &mut tree.parts);
    }
}

/// Whether each component is one of the others.
fn are_among(known: &[u32], others: &[u32]) -> bool
    ensures { Tells result ((c : ℕ) → any_pass (nat_eq c) known.now ≡ true → any_pass (nat_eq c) others.now ≡ true) ((c : ℕ) × (any_pass (nat_eq c) known.now ≡ true) × (any_pass (nat_eq c) others.now ≡ false)) }
{
    for component in known {
        if !is_among(others, *component) {
            return false;
        }
    }
    true
}

/// Whether the tree has no marks of its own.
fn is_unmarked(tree: &Tree) -> bool
    ensures { Tells result ((m : Sign) → is_marked tree.now m ≡ false) ((m : Sign) × (is_marked tree.now m ≡ true)) }
{
    if tree.here {
        return false;
    }
    match tree.known.as_slice().first() {
        None => true,
        Some(_) => false,
    }
}

/// Whether each of the tree's own marks is one of the other's.
fn tree_marks_below(tree: &Tree, other: &Tree) -> bool
    ensures { Tells result ((m : Sign) → is_marked tree.now m ≡ true → is_marked other.now m ≡ true) ((m : Sign) × (is_marked tree.now m ≡ true) × (is_marked other.now m ≡ false)) }
{
    if tree.here && !other.here {
        return false;
    }
    if !are_among(tree.known.as_slice(), other.known.as_slice()) {
        return false;
    }
    true
}

/// Whether each of the tree's own marks is one of the tree's at a place.
fn marks_below(tree: &Tree, others: &[Tree], at: usize) -> bool
    ensures { Tells result ((m : Sign) → is_marked tree.now m ≡ true → has_mark others.now m (at ∷ []) ≡ true) ((m : Sign) × (is_marked tree.now m ≡ true) × (has_mark others.now m (at ∷ []) ≡ false)) }
{
    let Some(other) = others.get(at) else {
        let bare = is_unmarked(tree);
        return bare;
    };
    let below = tree_marks_below(tree, other);
    below
}

/// The parts of the tree at a place, none where there is no tree.
pub fn parts_at(trees: &[Tree], at: usize) -> &[Tree]
    ensures { (m : Sign) (j : ℕ) (q : List ℕ) → has_mark trees.now m (at ∷ j ∷ q) ≡ has_mark result.now m (j ∷ q) }
{
    match trees.get(at) {
        Some(tree) => tree.parts.as_slice(),
        None => &[],
    }
}

/// Whether each mark is one of the others'.
pub fn is_below(trees: &[Tree], others: &[Tree]) -> bool
    ensures { Tells result (IsWithin (has_mark trees.now) (has_mark others.now)) (IsBeyond (has_mark trees.now) (has_mark others.now)) }
{
    for (i, tree) in trees.iter().enumerate() {
        if !marks_below(tree, others, i) {
            return false;
        }
        if !is_below(tree.parts.as_slice(), parts_at(others, i)) {
            return false;
        }
    }
    true
}

/// Whether there is a value in the tree at a place.
pub fn is_here(trees: &[Tree], at: usize) -> bool
    ensures { result ≡ has_mark trees.now here (at ∷ []) }
{
    match trees.get(at) {
        Some(tree) => tree.here,
        None => false,
    }
}
