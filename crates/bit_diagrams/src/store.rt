// A store and its Ids: what a store keeps, its constants, its bits and its nodes.
ghost use Rattle.std.specs.Prelude.{◌≡◌, ◌-◌, ◌^◌, ◌<◌, ◌≤◌, [], length, drop, IfOk, OnErr};

use crate::bit_list::Bits;
use crate::parts::{FALSE, Id, Memory, Node, TRUE};
use indexmap::IndexSet;
use std::alloc::Global;
use std::marker::Model;

/// A store of shared decision diagrams over a fixed number of places. Each of its nodes stands once,
/// children before their parents, places rise from parent to child, and the two children differ.
#[derive(Drop)]
pub struct Diagrams {
    alloc: Global,
    places: usize,
    nodes: IndexSet<Node>,
}

impl Model for Diagrams {
    ghost use Rattle.std.specs.Prelude.{reverse};
    ghost use Rattle.bit_diagrams.specs.Store.{Store, AreNodes};

    ghost Value = { Store };

    ghost view = { λ d. record { places = d.places; nodes = reverse d.nodes.keys } };

    ghost invariant = { λ d. AreNodes d.places (reverse d.nodes.keys) };
}

impl Diagrams {
    ghost use Rattle.bit_diagrams.specs.Store.{constant_id, IsIdOf, node_at, place_of, IsStore};
    ghost use Rattle.bit_diagrams.specs.Meaning.{holds, Stands, Keeps};
    ghost use Rattle.bit_diagrams.specs.Choice.{Grows, IsBranch};

    /// A store with this many places and no nodes.
    pub fn new(alloc: Global, places: usize) -> Result<Diagrams, Memory>
        ensures made { IfOk result (λ s. (s.places ≡ places) × (s.nodes ≡ [])) }
    {
        let nodes = IndexSet::with_capacity(alloc, 16)?;
        Ok(Diagrams {
            alloc,
            places,
            nodes,
        })
    }

    /// The number of places.
    pub fn places(&self) -> usize
        ensures { result ≡ self.now.places }
    {
        self.places
    }

    /// The number of nodes of the store.
    pub fn node_count(&self) -> usize
        ensures count { result ≡ length self.now.nodes }
        ensures small { length self.now.nodes < 2 ^ 63 }
        ensures facts { IsStore self.now }
    {
        self.nodes.len()
    }

    /// The Id of the set of all lists, or of the empty set; it takes no memory.
    pub fn constant(&self, value: bool) -> Id
        ensures named { result ≡ constant_id value }
        ensures made { Stands self.now result (λ _. value) }
    {
        if value { TRUE } else { FALSE }
    }

    /// Whether the Id holds on the bits, one bit a place; it takes no memory.
    pub fn holds(&self, id: Id, bits: &Bits) -> bool
        requires of_store { IsIdOf self.now id }
        requires full { length bits.now ≡ self.now.places }
        ensures { result ≡ holds self.now id bits.now }
    {
        let values = bits.as_slice();
        let mut at = id;
        while let Some(node) = self.node(at) {
            at = node.child(values);
        }
        at == TRUE
    }

    // The allocator that the store keeps.
    pub(crate) fn allocator(&self) -> Global {
        self.alloc
    }

    /// The node that an Id names; the constants name none, nor does an Id that is not of this store. It
    /// takes no memory.
    pub fn node(&self, id: Id) -> Option<Node>
        ensures node { result ≡ node_at self.now.nodes id }
        ensures facts { IsStore self.now }
    {
        let nodes = &self.nodes;
        if id.0 < 2 {
            return None;
        }
        nodes.get_index(id.0 - 2).copied()
    }

    // The place that an Id tests first, or the number of places for a constant.
    pub(crate) fn place_of(&self, id: Id) -> usize
        ensures place { result ≡ place_of self.now.places self.now.nodes id }
        ensures facts { IsStore self.now }
    {
        match self.node(id) {
            None => self.places,
            Some(node) => node.place,
        }
    }

    // The Id of a node with these children: the child itself where both are one.
    pub(crate) fn branch(&mut self, node: Node) -> Result<Id, Memory>
        requires within { node.place < self.old.places }
        requires of_low { IsIdOf self.old node.low }
        requires of_high { IsIdOf self.old node.high }
        requires low_rises { node.place < place_of self.old.places self.old.nodes node.low }
        requires high_rises { node.place < place_of self.old.places self.old.nodes node.high }
        ensures made { IfOk result (IsBranch self.new node) }
        ensures grows { Grows self.old self.new }
        ensures err { OnErr result (self.new ≡ self.old) }
    {
        if node.low == node.high {
            return Ok(node.low);
        }
        // A set has fewer than 2^63 values, so the Id fits.
        let _count = self.nodes.len();
        let (index, _) = self.nodes.insert_full(node)?;
        Ok(Id(index + 2))
    }

    // Takes the nodes after the first `count` away.
    pub(crate) fn restore(&mut self, count: usize)
        requires { count ≤ length self.old.nodes }
        ensures places { self.new.places ≡ self.old.places }
        ensures nodes { self.new.nodes ≡ drop (length self.old.nodes - count) self.old.nodes }
    {
        self.nodes.truncate(count);
    }
}
