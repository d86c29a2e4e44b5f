ghost use Rattle.std.specs.Prelude.{◌≡◌};
ghost use Rattle.ios_reader.specs.Profile.{IsPolicyOf};

use ios_tree::IosTree;
use route_types::Row;
use std::marker::Model;

/// A policy that lies in the profile: the tree that it stands in, and its name.
#[derive(Debug, Drop)]
pub struct CheckedIos {
    pub(crate) tree: IosTree,
    pub(crate) names: Row<Row<u8>>,
}

impl Model for CheckedIos {
    ghost use Rattle.std.specs.Prelude.{◌≡◌, List, [], ◌∷◌, ℕ};
    ghost use Rattle.ios_reader.specs.Profile.{PolicyParts, IsPolicyOf};

    ghost Value = { PolicyParts };

    ghost view = { λ p. record { items = p.tree; names = p.names } };

    ghost invariant = { λ p. IsPolicyOf p.tree p.names };
}

impl CheckedIos {
    /// The tree that the policy stands in. It takes no memory.
    pub fn tree(&self) -> &IosTree
        ensures value { result.now ≡ self.now.items }
        // The policy of the one name is in profile.
        ensures in_profile { IsPolicyOf self.now.items self.now.names }
    {
        &self.tree
    }

    /// The names of the policy: for IOS there is one. It takes no memory.
    pub fn names(&self) -> &[Row<u8>]
        ensures value { result.now ≡ self.now.names }
        // The policy of the one name is in profile.
        ensures in_profile { IsPolicyOf self.now.items self.now.names }
    {
        self.names.as_slice()
    }
}
