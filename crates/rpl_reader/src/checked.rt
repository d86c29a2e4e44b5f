ghost use Rattle.std.specs.Prelude.{◌≡◌};
ghost use Rattle.rpl_reader.specs.Profile.{IsPolicyOf};

use route_types::Row;
use rpl_tree::RplTree;
use std::marker::Model;
use std::slice::from_ref;

/// A policy that lies in the profile: the tree that it stands in, and its one name.
#[derive(Drop)]
pub struct CheckedRpl {
    pub(crate) tree: RplTree,
    pub(crate) name: Row<u8>,
}

impl Model for CheckedRpl {
    ghost use Rattle.std.specs.Prelude.{[], ◌∷◌};
    ghost use Rattle.rpl_reader.specs.Profile.{PolicyParts, InProfile};

    ghost Value = { PolicyParts };

    ghost view = { λ p. record { items = p.tree; names = p.name ∷ [] } };

    ghost invariant = { λ p. InProfile p.name p.tree };
}

impl CheckedRpl {
    /// The tree that the policy stands in. It takes no memory.
    #[tactic(auto, using(crate::proofs::OneName::one_name))]
    pub fn tree(&self) -> &RplTree
        ensures value { result.now ≡ self.now.items }
        // The policy of the one name is in profile.
        ensures in_profile { IsPolicyOf self.now.items self.now.names }
    {
        &self.tree
    }

    /// The names of the policy, of which there is one. It takes no memory.
    #[tactic(auto, using(crate::proofs::OneName::one_name))]
    pub fn names(&self) -> &[Row<u8>]
        ensures value { result.now ≡ self.now.names }
        // The policy of the one name is in profile.
        ensures in_profile { IsPolicyOf self.now.items self.now.names }
    {
        from_ref(&self.name)
    }
}
