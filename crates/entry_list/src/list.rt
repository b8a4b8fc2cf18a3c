// The list.

ghost use Rattle.std.specs.Prelude.{◌≡◌, ℕ, ◌+◌, ◌<◌, ◌≤◌, ◌^◌, List, [], ◌∷◌, ◌++◌, map, Option, Some, None, IfOk, IfErr, OnOk, OnErr, option_copied, true, false};
ghost use Rattle.slab.specs.Slab.{get};
ghost use Rattle.entry_list.specs.Listed.{has_key, AreDistinct, value_at, first_key, last_key, next_key, prev_key, inserted, without, replaced};
ghost use Rattle.entry_list.specs.Nodes.{node_at};

use crate::links::{link_next, link_prev, set_value};
use crate::node::Node;
use slab::Slab;
use std::alloc::{AllocError, Global};
use std::marker::Model;

/// A doubly linked list. Each value stands under a key of its own until it is taken out; a later value may get that key again.
///
/// No call walks along the list: each takes constant time, but where `reserve`, `push_back` or `insert_before` makes the slab
/// longer, which is constant time over many calls.
#[derive(Drop)]
pub struct EntryList<T> {
    nodes: Slab<Node<T>>,
    first: Option<usize>,
    last: Option<usize>,
    // Room that was asked for and is not taken yet: at most what the slab has.
    spare: usize,
}

impl<T> Model for EntryList<T> {
    ghost use Rattle.entry_list.specs.Listed.{Listed, listed_code};

    ghost Value = { Listed T };

    ghost coded = { listed_code T.code };

    ghost use Rattle.entry_list.specs.walks.Linked.{pairs_of, Holds};

    ghost view = { λ l. record { pairs = pairs_of l.nodes l.first; spare = l.spare } };

    ghost invariant = { λ l. Holds (pairs_of l.nodes l.first) l.nodes l.first l.last l.spare };
}

impl<T> EntryList<T> {
    /// The empty list. It allocates nothing.
    pub fn new(alloc: Global) -> EntryList<T>
        ensures { result ≡ record { pairs = []; spare = 0 } }
    {
        EntryList {
            nodes: Slab::new(alloc),
            first: None,
            last: None,
            spare: 0,
        }
    }

    /// Makes room for `n` more values, so that `insert_before_reserved` may be called as often. Where memory is refused, the list
    /// stays as it was.
    pub fn reserve(&mut self, n: usize) -> Result<(), AllocError>
        ensures room { OnOk result (n ≤ self.new.spare) }
        ensures pairs { self.new.pairs ≡ self.old.pairs }
        ensures refused { OnErr result (self.new ≡ self.old) }
    {
        self.nodes.reserve(n)?;
        self.spare = self.spare.max(n);
        Ok(())
    }

    /// Puts a value at the end and returns its key. Where memory is refused, the value comes back and the list stays as it was.
    pub fn push_back(&mut self, v: T) -> Result<usize, T>
        ensures fresh { IfOk result (λ k. has_key k self.old.pairs ≡ false) }
        ensures small { IfOk result (λ k. k + 1 < 2 ^ 64) }
        ensures pairs { IfOk result (λ k. self.new.pairs ≡ self.old.pairs ++ (k, v) ∷ []) }
        ensures refused { OnErr result (self.new ≡ self.old) }
        ensures back { IfErr result (λ w. w ≡ v) }
    {
        if self.reserve(1).is_err() {
            return Err(v);
        }
        Ok(self.push_back_reserved(v))
    }

    // Puts a value at the end, where there is room.
    fn push_back_reserved(&mut self, v: T) -> usize
        requires { 0 < self.old.spare }
        ensures fresh { has_key result self.old.pairs ≡ false }
        ensures small { result + 1 < 2 ^ 64 }
        ensures pairs { self.new.pairs ≡ self.old.pairs ++ (result, v) ∷ [] }
        ensures spare { self.new.spare + 1 ≡ self.old.spare }
    {
        let last = self.last;
        let key = self.nodes.insert_reserved(Node {
            value: v,
            prev: last,
            next: None,
        });
        // The key is below a `usize`, so one more than it is a `usize` too.
        let _above = self.nodes.capacity();
        self.first = link_next(&mut self.nodes, self.first, last, Some(key));
        self.last = Some(key);
        self.spare -= 1;
        key
    }

    /// Puts a value directly before that of `key` and returns its key. Where memory is refused, the value comes back and the list
    /// stays as it was.
    pub fn insert_before(&mut self, key: usize, v: T) -> Result<usize, T>
        requires { has_key key self.old.pairs ≡ true }
        ensures fresh { IfOk result (λ k. has_key k self.old.pairs ≡ false) }
        ensures small { IfOk result (λ k. k + 1 < 2 ^ 64) }
        ensures pairs { IfOk result (λ k. self.new.pairs ≡ inserted key (k, v) self.old.pairs) }
        ensures refused { OnErr result (self.new ≡ self.old) }
        ensures back { IfErr result (λ w. w ≡ v) }
    {
        if self.reserve(1).is_err() {
            return Err(v);
        }
        Ok(self.insert_before_reserved(key, v))
    }

    /// Puts a value directly before that of `key` and returns its key, in room that `reserve` made.
    pub fn insert_before_reserved(&mut self, key: usize, v: T) -> usize
        requires there { has_key key self.old.pairs ≡ true }
        requires room { 0 < self.old.spare }
        ensures fresh { has_key result self.old.pairs ≡ false }
        ensures small { result + 1 < 2 ^ 64 }
        ensures pairs { self.new.pairs ≡ inserted key (result, v) self.old.pairs }
        ensures spare { self.new.spare + 1 ≡ self.old.spare }
    {
        let prev = self.nodes[key].prev;
        let new = self.nodes.insert_reserved(Node {
            value: v,
            prev,
            next: Some(key),
        });
        // As in `push_back_reserved`.
        let _above = self.nodes.capacity();
        self.last = link_prev(&mut self.nodes, self.last, Some(key), Some(new));
        self.first = link_next(&mut self.nodes, self.first, prev, Some(new));
        self.spare -= 1; // one place of those reserved is taken
        new
    }

    /// Takes out the value of a key. All others keep their keys and their order.
    pub fn unlink(&mut self, key: usize) -> T
        requires { has_key key self.old.pairs ≡ true }
        ensures value { value_at self.old.pairs key ≡ Some result }
        ensures left { self.new ≡ record { pairs = without key self.old.pairs; spare = self.old.spare } }
    {
        let Node { value, prev, next } = self.nodes.remove(key);
        self.first = link_next(&mut self.nodes, self.first, prev, next);
        self.last = link_prev(&mut self.nodes, self.last, next, prev);
        value
    }

    /// Puts another value under a key, and returns the old one.
    pub fn replace(&mut self, key: usize, v: T) -> T
        requires { has_key key self.old.pairs ≡ true }
        ensures value { value_at self.old.pairs key ≡ Some result }
        ensures left { self.new ≡ record { pairs = replaced key v self.old.pairs; spare = self.old.spare } }
    {
        set_value(&mut self.nodes, key, v)
    }

    /// The value of a key, if it is a key of the list.
    pub fn get(&self, key: usize) -> Option<&T>
        ensures { option_copied result ≡ value_at self.now.pairs key }
    {
        match self.nodes.get(key) {
            Some(node) => Some(&node.value),
            None => None,
        }
    }

    /// The key of the first value, or `None` where the list is empty.
    pub fn first(&self) -> Option<usize>
        ensures { result ≡ first_key self.now.pairs }
    {
        self.first
    }

    /// The key of the value after that of `key`, or `None` at the end.
    pub fn next(&self, key: usize) -> Option<usize>
        requires { has_key key self.now.pairs ≡ true }
        ensures { result ≡ next_key self.now.pairs key }
    {
        self.nodes[key].next
    }

    /// The key of the value before that of `key`, or `None` at the beginning.
    pub fn prev(&self, key: usize) -> Option<usize>
        requires { has_key key self.now.pairs ≡ true }
        ensures { result ≡ prev_key self.now.pairs key }
    {
        self.nodes[key].prev
    }

    /// The slab that holds the list: at the key of each value a node of it, and nothing at any other key.
    pub fn nodes(&self) -> &Slab<Node<T>>
        ensures nodes { (k : ℕ) → get result.now k ≡ node_at self.now.pairs k }
        ensures distinct { AreDistinct self.now.pairs }
    {
        &self.nodes
    }
}
