// The nodes found so far.
ghost use Rattle.std.specs.Prelude.{◌≡◌, true, Some, OnOk};
ghost use Rattle.settled_graph.specs.Keys.{known, IsKnown, Notes};

use crate::key::Key;
use indexmap::IndexMap;
use policy_core::Node;
use route_types::Memory;

/// For each key that is settled, the node that does it.
pub(crate) type Memo = IndexMap<Key, Node>;

/// The node of a key, if it was found.
pub(crate) fn known(memo: &Memo, key: &Key) -> Option<Node>
    ensures { result ≡ known memo.now key.now }
{
    memo.get(key).copied()
}

/// Whether the key is settled: then its node was found.
pub(crate) fn is_known(memo: &Memo, key: &Key) -> bool
    ensures { result ≡ true → IsKnown memo.now key.now }
{
    match known(memo, key) {
        Some(_) => true,
        None => false,
    }
}

/// The node of a key that is settled.
pub(crate) fn found(memo: &Memo, key: &Key) -> Node
    requires { IsKnown memo.now key.now }
    ensures { known memo.now key.now ≡ Some result }
{
    known(memo, key).unwrap()
}

/// Keeps the node of a key.
pub(crate) fn note(memo: &mut Memo, key: Key, node: Node) -> Result<(), Memory>
    ensures { OnOk result (Notes memo.old memo.new key node) }
{
    memo.insert(key, node)?;
    Ok(())
}
