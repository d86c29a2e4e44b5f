ghost use Rattle.std.specs.Prelude.{◌≡◌};

use crate::item::JunosItem;
use route_types::Row;
use std::marker::Model;

/// The policies of a Junos text and what they name, in text order. Contracts see it as the list of its
/// items.
#[derive(Debug, Drop)]
pub struct JunosTree {
    pub(crate) items: Row<JunosItem>,
}

impl Model for JunosTree {
    ghost use Rattle.std.specs.Prelude.{List};
    ghost use Rattle.junos_tree.specs.declared.item.JunosItem.{JunosItem};

    ghost Value = { List JunosItem };

    ghost view = { λ t. t.items };
}

impl JunosTree {
    /// The items in text order. It takes no memory.
    pub fn items(&self) -> &[JunosItem]
        ensures { result.now ≡ self.now }
    {
        self.items.as_slice()
    }
}
