// Writes of one field of one node.

ghost use Rattle.std.specs.Prelude.{◌≡◌, ℕ, option_map, Some};
ghost use Rattle.slab.specs.Slab.{get, ContainsKey, slab_len, Updates};
ghost use Rattle.entry_list.specs.walks.Linked.{prev_set, next_set, end_at, with_value};

use crate::node::Node;
use slab::Slab;
use std::mem;

/// Another key stands before the node at `at`. With no node there, it is the last of the list, which is returned.
pub fn link_prev<T>(
    nodes: &mut Slab<Node<T>>,
    last: Option<usize>,
    at: Option<usize>,
    prev: Option<usize>,
) -> Option<usize>
    requires { (k : ℕ) → at ≡ Some k → ContainsKey nodes.old k }
    ensures nodes { (k : ℕ) → get nodes.new k ≡ prev_set at prev (get nodes.old) k }
    ensures last { result ≡ end_at at prev last }
    ensures len { slab_len nodes.new ≡ slab_len nodes.old }
    ensures capacity { nodes.new.capacity ≡ nodes.old.capacity }
{
    match at {
        Some(key) => {
            nodes[key].prev = prev;
            last
        }
        None => prev,
    }
}

/// Another key stands after the node at `at`. With no node there, it is the first of the list, which is returned.
pub fn link_next<T>(
    nodes: &mut Slab<Node<T>>,
    first: Option<usize>,
    at: Option<usize>,
    next: Option<usize>,
) -> Option<usize>
    requires { (k : ℕ) → at ≡ Some k → ContainsKey nodes.old k }
    ensures nodes { (k : ℕ) → get nodes.new k ≡ next_set at next (get nodes.old) k }
    ensures first { result ≡ end_at at next first }
    ensures len { slab_len nodes.new ≡ slab_len nodes.old }
    ensures capacity { nodes.new.capacity ≡ nodes.old.capacity }
{
    match at {
        Some(key) => {
            nodes[key].next = next;
            first
        }
        None => next,
    }
}

/// Puts another value into the node at a key, and returns the old one.
pub fn set_value<T>(nodes: &mut Slab<Node<T>>, key: usize, value: T) -> T
    requires { ContainsKey nodes.old key }
    ensures node { Updates nodes.old nodes.new key (option_map (with_value value) (get nodes.old key)) }
    ensures len { slab_len nodes.new ≡ slab_len nodes.old }
    ensures capacity { nodes.new.capacity ≡ nodes.old.capacity }
    ensures old { option_map (λ n. n.value) (get nodes.old key) ≡ Some result }
{
    mem::replace(&mut nodes[key].value, value)
}
