//! A list over nodes of its own.
ghost use Rattle.std.specs.Prelude.{◌≡◌, ◌≤◌, ◌++◌, ◌∷◌, ℕ, List, [], drop, length, max, IfSome, IsOk, OnOk, OnErr};
ghost use Rattle.link_lists.specs.Chains.{first, last};
ghost use Rattle.link_lists.specs.IndexLists.{Has, IsNew, IsInOrder};

use crate::chain::Chain;
use crate::nodes::{Nodes, OutOfMemory};
use std::alloc::Global;
use std::marker::Model;

/// A list of numbers below a room, each once: a chain over nodes of its own.
///
/// Contracts see the plain list. No call but `grow` takes memory, and none walks the list.
#[derive(Debug, Drop)]
pub struct IndexList {
    nodes: Nodes,
    chain: Chain,
    /// How many are listed.
    len: u32,
}

impl Model for IndexList {
    ghost use Rattle.link_lists.specs.IndexLists.{IndexList};

    ghost Value = { IndexList };

    ghost use Rattle.link_lists.specs.Inside.{view_of, IsKept};

    ghost view = { view_of };

    ghost invariant = { IsKept };
}

impl IndexList {
    /// The empty list, with room for no number.
    pub fn new(alloc: Global) -> IndexList
        ensures { result ≡ record { items = []; room = 0 } }
    {
        IndexList {
            nodes: Nodes::new(alloc, 1),
            chain: Chain::new(0),
            len: 0,
        }
    }

    /// Makes room for the numbers below `n`. There is never less room than before. Where there is as much, no memory is taken.
    pub fn grow(&mut self, n: u32) -> Result<(), OutOfMemory>
        ensures ok { OnOk result (self.new ≡ record self.old { room = max self.old.room n }) }
        ensures err { OnErr result (self.new ≡ self.old) }
        ensures had { n ≤ self.old.room → IsOk result }
    {
        self.nodes.grow(n)?;
        Ok(())
    }

    /// How many are listed.
    pub fn len(&self) -> u32
        ensures { result ≡ length self.now.items }
    {
        self.len
    }

    /// Each is listed once, and only numbers below the room are. Does nothing; who calls it has this of the list.
    pub fn stands_in_order(&self)
        ensures { IsInOrder self.now }
    {
        let _len = self.len;
    }

    /// The first; none exactly where the list is empty.
    pub fn front(&self) -> Option<u32>
        ensures { result ≡ first self.now.items }
    {
        self.chain.front()
    }

    /// The last; none exactly where the list is empty.
    pub fn back(&self) -> Option<u32>
        ensures { result ≡ last self.now.items }
    {
        self.chain.back()
    }

    /// The one directly before this one; none exactly where it is the first. It is read of the node itself.
    pub fn prev(&self, x: u32) -> Option<u32>
        requires { Has self.now x }
        ensures { (front back : List ℕ) → self.now.items ≡ front ++ x ∷ back → result ≡ last front }
    {
        self.chain.prev(&self.nodes, x)
    }

    /// The one directly behind this one; none exactly where it is the last. It is read of the node itself.
    pub fn next(&self, x: u32) -> Option<u32>
        requires { Has self.now x }
        ensures { (front back : List ℕ) → self.now.items ≡ front ++ x ∷ back → result ≡ first back }
    {
        self.chain.next(&self.nodes, x)
    }

    /// Puts a number before all others. Touches it and the first.
    pub fn push_front(&mut self, x: u32)
        requires { IsNew self.old x }
        ensures { self.new ≡ record self.old { items = x ∷ self.old.items } }
    {
        self.chain.push_front(&mut self.nodes, x);
        self.len += 1;
    }

    /// Puts a number behind all others. Touches it and the last.
    pub fn push_back(&mut self, x: u32)
        requires { IsNew self.old x }
        ensures { self.new ≡ record self.old { items = self.old.items ++ x ∷ [] } }
    {
        self.chain.push_back(&mut self.nodes, x);
        self.len += 1;
    }

    /// Puts a number directly before `at`. Touches both, and the one before.
    pub fn insert_before(&mut self, at: u32, x: u32)
        requires present { Has self.old at }
        requires absent { IsNew self.old x }
        ensures { (front back : List ℕ) → self.old.items ≡ front ++ at ∷ back
            → self.new ≡ record self.old { items = front ++ x ∷ at ∷ back } }
    {
        self.chain.insert_before(&mut self.nodes, at, x);
        self.len += 1;
    }

    /// Takes a number out. Touches its neighbours.
    pub fn remove(&mut self, x: u32)
        requires { Has self.old x }
        ensures { (front back : List ℕ) → self.old.items ≡ front ++ x ∷ back
            → self.new ≡ record self.old { items = front ++ back } }
    {
        self.chain.unlink(&mut self.nodes, x);
        self.len -= 1;
    }

    /// Takes the first out, and answers it; none exactly where the list is empty. Touches it and the next one.
    pub fn pop_front(&mut self) -> Option<u32>
        ensures front { result ≡ first self.old.items }
        ensures rest { self.new ≡ record self.old { items = drop 1 self.old.items } }
        ensures new { IfSome result (λ x. IsNew self.new x) }
    {
        self.stands_in_order();
        let x = self.front()?;
        self.remove(x);
        Some(x)
    }

    /// Puts `new` in the place of `old`. Touches both and the neighbours.
    pub fn replace(&mut self, old: u32, new: u32)
        requires present { Has self.old old }
        requires absent { IsNew self.old new }
        ensures { (front back : List ℕ) → self.old.items ≡ front ++ old ∷ back
            → self.new ≡ record self.old { items = front ++ new ∷ back } }
    {
        self.chain.replace(&mut self.nodes, old, new);
    }

    /// Takes all out. Touches none of them.
    pub fn clear(&mut self)
        ensures { self.new ≡ record self.old { items = [] } }
    {
        self.chain = Chain::new(0);
        self.len = 0;
    }
}
