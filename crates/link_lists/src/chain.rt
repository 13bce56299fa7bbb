//! A chain: a list of nodes, by its two ends.
ghost use Rattle.std.specs.Prelude.{◌≡◌, ◌<◌, ◌++◌, ◌∷◌, ℕ, List, [], Option, None};
ghost use Rattle.link_lists.specs.Grid.{Grid, Leaves, times};
ghost use Rattle.link_lists.specs.Chains.{IsChain, StandsIn, Lacks, KeepsOthers, first, last};
ghost use Rattle.link_lists.specs.Cuts.{IsCut};

use crate::nodes::{Link, Nodes};
use std::marker::Model;

/// A list of nodes that are linked in one pair.
///
/// It keeps its two ends; the rest stands in the nodes, which each call is handed. In one pair a node stands in one list at a
/// time.
#[derive(Debug, Drop)]
pub struct Chain {
    pair: u32,
    head: Option<u32>,
    tail: Option<u32>,
}

impl Model for Chain {
    ghost use Rattle.link_lists.specs.Chains.{Ends};

    ghost Value = { Ends };

    ghost view = { λ c. record { pair = c.pair; head = c.head; tail = c.tail } };
}

impl Chain {
    /// A chain without nodes, over any nodes that have this pair. The pairs are numbered from 0.
    pub fn new(pair: u32) -> Chain
        ensures pair { result.pair ≡ pair }
        ensures empty { (g : Grid) → pair < g.pairs → IsChain g result [] }
    {
        Chain {
            pair,
            head: None,
            tail: None,
        }
    }

    /// Puts a node before all others.
    pub fn push_front(&mut self, nodes: &mut Nodes, node: u32)
        requires exists { node < nodes.old.nodes }
        requires absent { Lacks nodes.old self.old node }
        ensures list { (xs : List ℕ) → IsChain nodes.old self.old xs
            → IsChain nodes.new self.new (node ∷ xs) }
        ensures others { (xs : List ℕ) → IsChain nodes.old self.old xs
            → KeepsOthers self.old.pair nodes.old nodes.new (node ∷ xs) }
        ensures pair { self.new.pair ≡ self.old.pair }
    {
        let head = self.head;
        self.join(nodes, None, head, node);
    }

    /// Puts a node behind all others.
    pub fn push_back(&mut self, nodes: &mut Nodes, node: u32)
        requires exists { node < nodes.old.nodes }
        requires absent { Lacks nodes.old self.old node }
        ensures list { (xs : List ℕ) → IsChain nodes.old self.old xs
            → IsChain nodes.new self.new (xs ++ node ∷ []) }
        ensures others { (xs : List ℕ) → IsChain nodes.old self.old xs
            → KeepsOthers self.old.pair nodes.old nodes.new (node ∷ xs) }
        ensures pair { self.new.pair ≡ self.old.pair }
    {
        let tail = self.tail;
        self.join(nodes, tail, None, node);
    }

    /// Puts a node directly before `at`.
    pub fn insert_before(&mut self, nodes: &mut Nodes, at: u32, node: u32)
        requires exists { node < nodes.old.nodes }
        requires present { StandsIn nodes.old self.old at }
        requires absent { Lacks nodes.old self.old node }
        ensures list { (front back : List ℕ) → IsChain nodes.old self.old (front ++ at ∷ back)
            → IsChain nodes.new self.new (front ++ node ∷ at ∷ back) }
        ensures others { (xs : List ℕ) → IsChain nodes.old self.old xs
            → KeepsOthers self.old.pair nodes.old nodes.new (node ∷ xs) }
        ensures pair { self.new.pair ≡ self.old.pair }
    {
        let link = nodes.link(self.pair, at);
        self.join(nodes, link.prev, Some(at), node);
    }

    /// Takes a node out.
    pub fn unlink(&mut self, nodes: &mut Nodes, node: u32)
        requires present { StandsIn nodes.old self.old node }
        ensures list { (front back : List ℕ) → IsChain nodes.old self.old (front ++ node ∷ back)
            → IsChain nodes.new self.new (front ++ back) }
        ensures others { (xs : List ℕ) → IsChain nodes.old self.old xs
            → KeepsOthers self.old.pair nodes.old nodes.new xs }
        ensures pair { self.new.pair ≡ self.old.pair }
    {
        let link = nodes.link(self.pair, node);
        self.set_next(nodes, link.prev, link.next);
        self.set_prev(nodes, link.next, link.prev);
    }

    /// Puts `new` in the place of `old`, which is then in the chain no more.
    pub fn replace(&mut self, nodes: &mut Nodes, old: u32, new: u32)
        requires exists { new < nodes.old.nodes }
        requires present { StandsIn nodes.old self.old old }
        requires absent { Lacks nodes.old self.old new }
        ensures list { (front back : List ℕ) → IsChain nodes.old self.old (front ++ old ∷ back)
            → IsChain nodes.new self.new (front ++ new ∷ back) }
        ensures others { (xs : List ℕ) → IsChain nodes.old self.old xs
            → KeepsOthers self.old.pair nodes.old nodes.new (new ∷ xs) }
        ensures pair { self.new.pair ≡ self.old.pair }
    {
        let link = nodes.link(self.pair, old);
        self.join(nodes, link.prev, link.next, new);
    }

    /// The first node; `None` exactly where there is none.
    pub fn front(&self) -> Option<u32>
        ensures { (g : Grid) (xs : List ℕ) → IsChain g self.now xs → result ≡ first xs }
    {
        self.head
    }

    /// The last node; `None` exactly where there is none.
    pub fn back(&self) -> Option<u32>
        ensures { (g : Grid) (xs : List ℕ) → IsChain g self.now xs → result ≡ last xs }
    {
        self.tail
    }

    /// The node directly before this one; `None` exactly where it is the first.
    pub fn prev(&self, nodes: &Nodes, node: u32) -> Option<u32>
        requires present { StandsIn nodes.now self.now node }
        ensures { (front back : List ℕ) → IsChain nodes.now self.now (front ++ node ∷ back)
            → result ≡ last front }
    {
        nodes.link(self.pair, node).prev
    }

    /// The node directly behind this one; `None` exactly where it is the last.
    pub fn next(&self, nodes: &Nodes, node: u32) -> Option<u32>
        requires present { StandsIn nodes.now self.now node }
        ensures { (front back : List ℕ) → IsChain nodes.now self.now (front ++ node ∷ back)
            → result ≡ first back }
    {
        nodes.link(self.pair, node).next
    }

    /// Lets the first part of a cut chain lead to another node. `at` is the last of that part.
    fn set_next(&mut self, nodes: &mut Nodes, at: Option<u32>, to: Option<u32>)
        requires { (front back : List ℕ) × (a b : Option ℕ)
            × IsCut nodes.old self.old front back a b × (at ≡ last front) }
        ensures cut { (front back : List ℕ) (a b : Option ℕ)
            → IsCut nodes.old self.old front back a b → at ≡ last front
            → IsCut nodes.new self.new front back to b }
        ensures leaves { (front back : List ℕ) (a b : Option ℕ)
            → IsCut nodes.old self.old front back a b → at ≡ last front
            → Leaves self.old.pair nodes.old nodes.new (front ++ back) }
        ensures pair { self.new.pair ≡ self.old.pair }
    {
        match at {
            None => self.head = to,
            Some(node) => {
                let link = nodes.link(self.pair, node);
                let prev = link.prev;
                nodes.put(self.pair, node, Link { prev, next: to });
            }
        }
    }

    /// Lets the second part of a cut chain lead back to another node. `at` is the first of that part.
    fn set_prev(&mut self, nodes: &mut Nodes, at: Option<u32>, to: Option<u32>)
        requires { (front back : List ℕ) × (a b : Option ℕ)
            × IsCut nodes.old self.old front back a b × (at ≡ first back) }
        ensures cut { (front back : List ℕ) (a b : Option ℕ)
            → IsCut nodes.old self.old front back a b → at ≡ first back
            → IsCut nodes.new self.new front back a to }
        ensures leaves { (front back : List ℕ) (a b : Option ℕ)
            → IsCut nodes.old self.old front back a b → at ≡ first back
            → Leaves self.old.pair nodes.old nodes.new (front ++ back) }
        ensures pair { self.new.pair ≡ self.old.pair }
    {
        match at {
            None => self.tail = to,
            Some(node) => {
                let link = nodes.link(self.pair, node);
                let next = link.next;
                nodes.put(self.pair, node, Link { prev: to, next });
            }
        }
    }

    /// Joins the two parts of a cut chain by a node between them.
    /// `prev` is the last of the first part, `next` the first of the second.
    fn join(&mut self, nodes: &mut Nodes, prev: Option<u32>, next: Option<u32>, node: u32)
        requires exists { node < nodes.old.nodes }
        requires cut { (front back : List ℕ) × (a b : Option ℕ)
            × IsCut nodes.old self.old front back a b × (prev ≡ last front) × (next ≡ first back)
            × (times node (front ++ back) ≡ 0) }
        ensures list { (front back : List ℕ) (a b : Option ℕ) → IsCut nodes.old self.old front back a b
            → prev ≡ last front → next ≡ first back → times node (front ++ back) ≡ 0
            → IsChain nodes.new self.new (front ++ node ∷ back) }
        ensures leaves { (front back : List ℕ) (a b : Option ℕ) → IsCut nodes.old self.old front back a b
            → prev ≡ last front → next ≡ first back
            → Leaves self.old.pair nodes.old nodes.new (node ∷ front ++ back) }
        ensures pair { self.new.pair ≡ self.old.pair }
    {
        self.set_next(nodes, prev, Some(node));
        self.set_prev(nodes, next, Some(node));
        nodes.put(self.pair, node, Link { prev, next });
    }
}
