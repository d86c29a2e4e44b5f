ghost use Rattle.std.specs.Prelude.{◌≡◌, ℕ};

use crate::atom::Atom;
use route_types::Change;
use std::marker::Model;

/// A node of a graph, by its place: the nodes of a graph have the places from 0 to below its count.
#[derive(Clone, Copy, Debug, PartialEq, Eq, Hash)]
pub struct Node(pub(crate) usize);

impl Model for Node {
    ghost Value = { ℕ };

    ghost view = { λ node. node.0 };

    ghost inverse = { λ n. record { 0 = n } };
}

impl Node {
    /// The place of the node. It takes no memory.
    pub fn place(&self) -> usize
        ensures { result ≡ self.now }
    {
        self.0
    }
}

/// What a node does with a route. Its children stand before it.
#[derive(Debug, PartialEq, Eq, Hash, Drop)]
pub enum NodeKind {
    /// Goes to `yes` where the route, as changed so far, meets the atom, else to `no`.
    Test { atom: Atom, yes: Node, no: Node },
    /// Changes the route and goes on.
    Do { change: Change, next: Node },
    /// Accepts the route as changed so far, or rejects it.
    Stop { accept: bool },
}
