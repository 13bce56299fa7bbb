//! The nodes: which nodes there are, and the two neighbours of each in every pair.
ghost use Rattle.std.specs.Prelude.{◌≡◌, ◌<◌, ◌≤◌, ◌+◌, ◌*◌, [], length, IsOk, OnOk, OnErr};
ghost use Rattle.link_lists.specs.Grid.{link_of, IsLinked};
ghost use Rattle.link_lists.specs.Chains.{GrewOnly};

use std::alloc::Global;
use std::marker::Model;

/// A call's answer that it found no memory. All is then as before the call.
pub use std::alloc::AllocError as OutOfMemory;

/// The neighbours of a node in one pair.
#[derive(Clone, Copy, Debug, PartialEq, Eq)]
pub struct Link {
    /// The node before it, towards the front; `None` at the front.
    pub prev: Option<u32>,
    /// The node behind it, towards the back; `None` at the back.
    pub next: Option<u32>,
}

/// Nodes, numbered from 0, each with so many link pairs. A chain links its nodes in one of the pairs.
#[derive(Debug, Drop)]
pub struct Nodes {
    pairs: u32,
    count: u32,
    links: Vec<Link>,
}

impl Model for Nodes {
    ghost use Rattle.std.specs.Prelude.{◌≡◌, ◌*◌, length};
    ghost use Rattle.link_lists.specs.Grid.{Grid};

    ghost Value = { Grid };

    ghost view = { λ n. record { pairs = n.pairs; nodes = n.count; links = n.links.items } };

    ghost invariant = { λ n. length n.links.items ≡ n.count * n.pairs };
}

impl Nodes {
    /// No nodes yet; those that come have this many link pairs each.
    pub fn new(alloc: Global, pairs: u32) -> Nodes
        ensures { result ≡ record { pairs = pairs; nodes = 0; links = [] } }
    {
        Nodes {
            pairs,
            count: 0,
            links: Vec::new(alloc),
        }
    }

    /// Makes `n` nodes in all, where there aren't as many yet: else no memory is taken. All chains stay as they are, and no new node
    /// is in one.
    pub fn grow(&mut self, n: u32) -> Result<(), OutOfMemory>
        ensures grown { OnOk result (GrewOnly self.old self.new n) }
        ensures kept { OnErr result (self.new ≡ self.old) }
        ensures had { n ≤ self.old.nodes → IsOk result }
    {
        if n > self.count {
            let links = n as usize * self.pairs as usize;
            let link = Link {
                prev: None,
                next: None,
            };
            self.links.resize(links, link)?;
            self.count = n;
        }
        Ok(())
    }

    /// Where the links of a node in a pair stand: those of one node stand side by side.
    fn place(&self, pair: u32, node: u32) -> usize
        requires pair { pair < self.now.pairs }
        requires node { node < self.now.nodes }
        ensures place { result ≡ node * self.now.pairs + pair }
        ensures inside { result < length self.now.links }
    {
        node as usize * self.pairs as usize + pair as usize
    }

    /// The neighbours of a node in a pair.
    pub(crate) fn link(&self, pair: u32, node: u32) -> Link
        requires pair { pair < self.now.pairs }
        requires node { node < self.now.nodes }
        ensures { result ≡ link_of self.now pair node }
    {
        let place = self.place(pair, node);
        self.links[place]
    }

    /// Gives a node other neighbours in a pair.
    pub(crate) fn put(&mut self, pair: u32, node: u32, link: Link)
        requires pair { pair < self.old.pairs }
        requires node { node < self.old.nodes }
        ensures { IsLinked self.old self.new pair node link }
    {
        let place = self.place(pair, node);
        self.links[place] = link;
    }
}
