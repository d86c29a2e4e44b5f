ghost use Rattle.std.specs.Prelude.{◌≡◌};

use crate::item::IosItem;
use route_types::Row;
use std::marker::Model;

/// The policy statements of an IOS text, in text order. Contracts see it as the list of its items.
#[derive(Debug, Drop)]
pub struct IosTree {
    pub(crate) items: Row<IosItem>,
}

impl Model for IosTree {
    ghost use Rattle.std.specs.Prelude.{List};
    ghost use Rattle.ios_tree.specs.declared.item.IosItem.{IosItem};

    ghost Value = { List IosItem };

    ghost view = { λ t. t.items };
}

impl IosTree {
    /// The items in text order. It takes no memory.
    pub fn items(&self) -> &[IosItem]
        ensures { result.now ≡ self.now }
    {
        self.items.as_slice()
    }
}
