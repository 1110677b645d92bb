//! Nodes in their storage, and what stands before and behind each.
ghost use Rattle.std.specs.Prelude.{◌≡◌, IfSome, IsSome};
ghost use Rattle.slab.specs.Slab.{get, slab_len};
ghost use Rattle.herm_links.specs.Chains.{IsChangedAt, with_next, with_prev, IsNextSet, IsPrevSet};

use slab::Slab;

/// A node of a list: its value, the number of the list, and the keys of the nodes before and behind it.
#[derive(Drop)]
pub struct Node<T> {
    pub value: T,
    pub list: usize,
    pub prev: Option<usize>,
    pub next: Option<usize>,
}

/// The keys of the first and of the last node of a list.
#[derive(Clone, Copy)]
pub struct Ends {
    pub first: Option<usize>,
    pub last: Option<usize>,
}

fn set_next<T>(nodes: &mut Slab<Node<T>>, key: usize, next: Option<usize>)
    requires { IsSome (get nodes.old key) }
    ensures changed { IsChangedAt (get nodes.old) (get nodes.new) key (with_next next) }
    ensures len { slab_len nodes.new ≡ slab_len nodes.old }
    ensures capacity { nodes.new.capacity ≡ nodes.old.capacity }
{
    nodes[key].next = next;
}

fn set_prev<T>(nodes: &mut Slab<Node<T>>, key: usize, prev: Option<usize>)
    requires { IsSome (get nodes.old key) }
    ensures changed { IsChangedAt (get nodes.old) (get nodes.new) key (with_prev prev) }
    ensures len { slab_len nodes.new ≡ slab_len nodes.old }
    ensures capacity { nodes.new.capacity ≡ nodes.old.capacity }
{
    nodes[key].prev = prev;
}

/// Puts `next` behind the node `prev`, or at the front of the list, and returns the first node.
pub fn link_next<T>(
    nodes: &mut Slab<Node<T>>,
    prev: Option<usize>,
    next: Option<usize>,
    first: Option<usize>,
) -> Option<usize>
    requires { IfSome prev (λ key. IsSome (get nodes.old key)) }
    ensures linked { IsNextSet (get nodes.old) (get nodes.new) prev next first result }
    ensures len { slab_len nodes.new ≡ slab_len nodes.old }
    ensures capacity { nodes.new.capacity ≡ nodes.old.capacity }
{
    match prev {
        Some(prev) => {
            set_next(nodes, prev, next);
            return first;
        }
        None => return next,
    }
}

/// Puts `prev` before the node `next`, or at the end of the list, and returns the last node.
pub fn link_prev<T>(
    nodes: &mut Slab<Node<T>>,
    next: Option<usize>,
    prev: Option<usize>,
    last: Option<usize>,
) -> Option<usize>
    requires { IfSome next (λ key. IsSome (get nodes.old key)) }
    ensures linked { IsPrevSet (get nodes.old) (get nodes.new) next prev last result }
    ensures len { slab_len nodes.new ≡ slab_len nodes.old }
    ensures capacity { nodes.new.capacity ≡ nodes.old.capacity }
{
    match next {
        Some(next) => {
            set_prev(nodes, next, prev);
            return last;
        }
        None => return prev,
    }
}
