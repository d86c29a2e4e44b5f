ghost use Rattle.std.specs.Prelude.{◌≡◌};

use rpl_forms::RplItem;
use std::marker::Model;
use text_words::Row;

/// The statements of the blocks of an RPL text, in text order: the first line of each block, its elements
/// or statements, and the word that ends it. Contracts see it as the list of its items.
#[derive(Debug, Drop)]
pub struct RplTree {
    pub(crate) items: Row<RplItem>,
}

impl Model for RplTree {
    ghost use Rattle.std.specs.Prelude.{List};
    ghost use Rattle.rpl_forms.specs.declared.item.RplItem.{RplItem};

    ghost Value = { List RplItem };

    ghost view = { λ t. t.items };
}

impl RplTree {
    /// The items in text order. It takes no memory.
    pub fn items(&self) -> &[RplItem]
        ensures { result.now ≡ self.now }
    {
        self.items.as_slice()
    }
}
