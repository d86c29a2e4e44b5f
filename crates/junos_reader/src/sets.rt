//! Sets of names, and of the prefixes of route-filters.
ghost use Rattle.std.specs.Prelude.{◌≡◌, ℕ, ◌||◌, List, IfOk, OnOk, bytes_eq};
ghost use Rattle.std.specs.List.{list_any};
ghost use Rattle.route_types.specs.Address.{PrefixParts, width};
ghost use Rattle.policy_text.specs.NameSets.{has_name};
ghost use Rattle.policy_calls.specs.Callees.{nows};
ghost use Rattle.junos_reader.specs.Terms.{stands_behind};
ghost use Rattle.junos_reader.specs.Forms.{same_prefix};
ghost use Rattle.junos_reader.specs.Known.{has_prefix};

use policy_text::{NameSet, add_name, has_name};
use route_types::{Memory, Prefix, Row};
use std::alloc::Global;
use std::collections::BTreeSet;

// The names, lent.
pub(crate) fn lent<'a>(alloc: Global, names: &'a [Row<u8>]) -> Result<Row<&'a [u8]>, Memory>
    ensures { IfOk result (λ row. nows row ≡ names.now) }
{
    let mut row = Row::new(alloc);
    let mut rest = names;
    while let [first, tail @ ..] = rest {
        row.push(first.as_slice())?;
        rest = tail;
    }
    Ok(row)
}

// The set of these names, each with sort 0 and number 0.
pub(crate) fn set_of<'a>(alloc: Global, names: &[&'a [u8]]) -> Result<NameSet<'a>, Memory>
    ensures { IfOk result (λ set. (q : List ℕ) → has_name set q 0 0 ≡ list_any (bytes_eq q) (nows names.now)) }
{
    let mut set = BTreeSet::new(alloc);
    let mut rest = names;
    while let [first, tail @ ..] = rest {
        add_name(&mut set, first, 0, 0)?;
        rest = tail;
    }
    Ok(set)
}

// The names behind the first that is one of these.
#[tactic(auto, unfolding(crate::specs::Terms::stands_behind))]
pub(crate) fn names_behind<'a>(
    alloc: Global,
    going: &NameSet<'a>,
    names: &[&'a [u8]],
    all: &[&'a [u8]],
) -> Result<NameSet<'a>, Memory>
    requires { (q : List ℕ) → has_name going.now q 0 0 ≡ list_any (bytes_eq q) (nows all.now) }
    ensures { IfOk result (λ set. (q : List ℕ) → has_name set q 0 0 ≡ stands_behind (nows all.now) (nows names.now) q) }
{
    let mut rest = names;
    while let [first, tail @ ..] = rest {
        if has_name(going, first, 0, 0) {
            let set = set_of(alloc, tail)?;
            return Ok(set);
        }
        rest = tail;
    }
    Ok(BTreeSet::new(alloc))
}

/// Prefixes, each by the width of its family, its bits and its length.
pub(crate) type PrefixSet = BTreeSet<(u64, u128, u64)>;

fn key_of(prefix: &Prefix) -> (u64, u128, u64)
    ensures { result ≡ (width prefix.now.address.family, prefix.now.address.bits, prefix.now.length) }
{
    let address = prefix.address();
    (
        address.family.width() as u64,
        address.bits,
        u64::from(prefix.length()),
    )
}

pub(crate) fn has_prefix(prefixes: &PrefixSet, prefix: &Prefix) -> bool
    ensures { result ≡ has_prefix prefixes.now prefix.now }
{
    prefixes.contains(&key_of(prefix))
}

pub(crate) fn add_prefix(prefixes: &mut PrefixSet, prefix: &Prefix) -> Result<(), Memory>
    ensures { OnOk result ((p : PrefixParts) → has_prefix prefixes.new p ≡ (same_prefix p prefix.now || has_prefix prefixes.old p)) }
{
    prefixes.insert(key_of(prefix))?;
    Ok(())
}
