// How a store finds bits on which an Id holds.
ghost use Rattle.std.specs.Prelude.{◌≡◌, ◌≢◌, true, false, length, IfOk};
ghost use Rattle.bit_diagrams.specs.Store.{IsIdOf, constant_id};
ghost use Rattle.bit_diagrams.specs.Meaning.{holds, Finds};

use crate::bit_list::Bits;
use crate::parts::{FALSE, Id, Memory};
use crate::store::Diagrams;

impl Diagrams {
    /// Bits, one a place, on which the Id holds, or `None` exactly for the Id of the empty set, which
    /// holds on no bits. The Id is of this store.
    pub fn find(&self, id: Id) -> Result<Option<Bits>, Memory>
        requires { IsIdOf self.now id }
        ensures { IfOk result (Finds self.now id) }
    {
        if id == FALSE {
            return Ok(None);
        }
        let mut values = vec![in self.allocator(); false; self.places()]?;
        self.write_path(id, &mut values);
        Ok(Some(Bits::from_vec(values)))
    }

    // Writes bits on which the Id holds: at each node the way to a child that is not false.
    fn write_path(&self, id: Id, values: &mut [bool])
        requires of_store { IsIdOf self.now id }
        requires not_false { id ≢ constant_id false }
        requires full { length values.old ≡ self.now.places }
        ensures { holds self.now id values.new ≡ true }
    {
        let mut at = id;
        while let Some(node) = self.node(at) {
            node.write_way(values);
            at = node.child(values);
        }
    }
}
