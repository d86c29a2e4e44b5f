// A graph and its nodes: how one is made, and what stands at a place.
ghost use Rattle.std.specs.Prelude.{◌≡◌, ◌<◌, ◌^◌, [], length, reverse, IfOk, OnErr};

use crate::atom::Atom;
use crate::node::{Node, NodeKind};
use indexmap::IndexSet;
use route_types::{Change, Memory};
use std::alloc::Global;
use std::marker::Model;

/// A graph of nodes that test a route, change it, or end with an answer. Contracts see it as the list of its
/// nodes, the newest first. Each node stands once, and its children stand before it.
#[derive(Drop)]
pub struct Core {
    alloc: Global,
    nodes: IndexSet<NodeKind>,
}

impl Model for Core {
    ghost use Rattle.std.specs.Prelude.{List, reverse};
    ghost use Rattle.core_nodes.specs.declared.node.NodeKind.{NodeKind};
    ghost use Rattle.core_nodes.specs.Nodes.{AreNodes};

    ghost Value = { List NodeKind };

    ghost view = { λ c. reverse c.nodes.keys };

    ghost invariant = { λ c. AreNodes (reverse c.nodes.keys) };
}

impl Core {
    ghost use Rattle.core_nodes.specs.declared.node.NodeKind.TheVariants.{Test, Do, Stop};
    ghost use Rattle.std.specs.List.{AllByRecursion};
    ghost use Rattle.core_nodes.specs.Nodes.{children, AreNodes};
    ghost use Rattle.core_nodes.specs.Made.{IsAt, Keeps, IsMade};

    /// A graph without nodes. It takes no memory.
    pub fn new(alloc: Global) -> Core
        ensures { result ≡ [] }
    {
        Core {
            alloc,
            nodes: IndexSet::new(alloc),
        }
    }

    /// How many nodes there are: their places are those below it. It takes no memory.
    pub fn count(&self) -> usize
        ensures count { result ≡ length self.now }
        ensures small { length self.now < 2 ^ 63 }
        ensures facts { AreNodes self.now }
    {
        self.nodes.len()
    }

    // The allocator that the graph keeps.
    pub(crate) fn allocator(&self) -> Global {
        self.alloc
    }

    /// What stands at a place, which is below the count. It takes no memory.
    pub fn kind(&self, place: usize) -> &NodeKind
        requires { place < length self.now }
        ensures at { IsAt self.now place result.now }
        ensures facts { AreNodes self.now }
    {
        self.nodes.get_index(place).unwrap()
    }

    // The node of this kind: the one that stands already, or a new one.
    fn put(&mut self, kind: NodeKind) -> Result<Node, Memory>
        requires { AllByRecursion (λ p. p < length self.old) (children kind) }
        ensures made { IfOk result (IsMade self.old self.new kind) }
        ensures keeps { Keeps self.old self.new }
        ensures err { OnErr result (self.new ≡ self.old) }
    {
        let (index, _) = self.nodes.insert_full(kind)?;
        Ok(Node(index))
    }

    /// The node that goes to `yes` where the atom holds, else to `no`: the one that stands already, or a new
    /// one. The two are nodes of this graph, and may be one. After want of memory the graph is unchanged.
    pub fn test(&mut self, atom: Atom, yes: Node, no: Node) -> Result<Node, Memory>
        requires of_yes { yes < length self.old }
        requires of_no { no < length self.old }
        ensures made { IfOk result (IsMade self.old self.new (Test atom yes no)) }
        ensures keeps { Keeps self.old self.new }
        ensures err { OnErr result (self.new ≡ self.old) }
    {
        self.put(NodeKind::Test { atom, yes, no })
    }

    /// The node that changes the route and goes on to `next`, a node of this graph: the one that stands
    /// already, or a new one. After want of memory the graph is unchanged.
    pub fn act(&mut self, change: Change, next: Node) -> Result<Node, Memory>
        requires { next < length self.old }
        ensures made { IfOk result (IsMade self.old self.new (Do change next)) }
        ensures keeps { Keeps self.old self.new }
        ensures err { OnErr result (self.new ≡ self.old) }
    {
        self.put(NodeKind::Do { change, next })
    }

    /// The node that accepts the route as changed so far, or rejects it: the one that stands already, or a
    /// new one. After want of memory the graph is unchanged.
    pub fn stop(&mut self, accept: bool) -> Result<Node, Memory>
        ensures made { IfOk result (IsMade self.old self.new (Stop accept)) }
        ensures keeps { Keeps self.old self.new }
        ensures err { OnErr result (self.new ≡ self.old) }
    {
        self.put(NodeKind::Stop { accept })
    }
}
