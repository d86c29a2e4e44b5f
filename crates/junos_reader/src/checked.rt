ghost use Rattle.std.specs.Prelude.{◌≡◌};
ghost use Rattle.junos_reader.specs.Profile.{IsChainOf};

use junos_tree::JunosTree;
use route_types::Row;
use std::marker::Model;

/// A chain of policies that lies in the profile: the tree that they stand in, and their names in the order of the chain,
/// at least one.
#[derive(Debug, Drop)]
pub struct CheckedJunos {
    pub(crate) tree: JunosTree,
    pub(crate) names: Row<Row<u8>>,
}

impl Model for CheckedJunos {
    ghost use Rattle.std.specs.Prelude.{◌≡◌, ◌<◌, List, ℕ, length};
    ghost use Rattle.junos_reader.specs.Profile.{PolicyParts, IsChainOf};

    ghost Value = { PolicyParts };

    ghost view = { λ p. record { items = p.tree; names = p.names } };

    ghost invariant = { λ p. IsChainOf p.tree p.names };
}

impl CheckedJunos {
    /// The tree that the policies stand in. It takes no memory.
    pub fn tree(&self) -> &JunosTree
        ensures value { result.now ≡ self.now.items }
        // The chain of the names is in profile.
        ensures in_profile { IsChainOf self.now.items self.now.names }
    {
        &self.tree
    }

    /// The names of the policies in the order of the chain. It takes no memory.
    pub fn names(&self) -> &[Row<u8>]
        ensures value { result.now ≡ self.now.names }
        // The chain of the names is in profile.
        ensures in_profile { IsChainOf self.now.items self.now.names }
    {
        self.names.as_slice()
    }
}
