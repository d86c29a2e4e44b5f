//! How many parameters the policies of each name have.
ghost use Rattle.std.specs.Prelude.{◌≡◌, ℕ, List, ◌||◌, not, ◌==◌, IfOk, OnOk, Some};
ghost use Rattle.std.specs.List.{list_any};
ghost use Rattle.name_maps.specs.Under.{under};
ghost use Rattle.rpl_facts.specs.Blocks.{takes_other};
ghost use Rattle.rpl_facts.specs.Counts.{has_other};

use name_maps::NameMap;
use route_types::Memory;
use rpl_forms::{Header, RplForm, RplItem};
use std::alloc::Global;

/// How many parameters the first policy of a name has, and whether a later one has another number.
#[derive(Clone, Copy)]
pub struct Count {
    pub first: usize,
    pub differs: bool,
}

// With one more policy of the name.
#[tactic(auto, using(crate::proofs::Counted::with_none, crate::proofs::Counted::with_more))]
fn with_count(old: Option<Count>, count: usize) -> Count
    ensures { (n : ℕ) → has_other (Some result) n ≡ (not (count == n) || has_other old n) }
{
    match old {
        None => Count {
            first: count,
            differs: false,
        },
        Some(old) => Count {
            first: old.first,
            differs: old.differs || old.first != count,
        },
    }
}

fn note_count<'a>(counts: &mut NameMap<'a, Count>, form: &'a RplForm) -> Result<(), Memory>
    ensures { OnOk result ((q : List ℕ) (n : ℕ) → has_other (under counts.new.entries q) n ≡ (takes_other q n form.now || has_other (under counts.old.entries q) n)) }
{
    let RplForm::Header(Header::Policy(policy)) = form else {
        return Ok(());
    };
    let name = policy.name.as_slice();
    let count = with_count(counts.get(name), policy.parameters.len());
    counts.put(name, count)?;
    Ok(())
}

/// The numbers of parameters under the names of policies. Its one error is want of memory.
pub fn counts_of<'a>(alloc: Global, items: &'a [RplItem]) -> Result<NameMap<'a, Count>, Memory>
    ensures { IfOk result (λ counts. (q : List ℕ) (n : ℕ) → has_other (under counts.entries q) n ≡ list_any (λ i. takes_other q n i.form) items.now) }
{
    let mut counts = NameMap::new(alloc);
    let mut rest = items;
    while let [first, tail @ ..] = rest {
        note_count(&mut counts, &first.form)?;
        rest = tail;
    }
    Ok(counts)
}

/// Whether a policy of the name has another number of parameters. It takes no memory.
pub fn takes_other<'a>(counts: &NameMap<'a, Count>, name: &'a [u8], number: usize) -> bool
    ensures { result ≡ has_other (under counts.now.entries name.now) number }
{
    match counts.get(name) {
        None => false,
        Some(count) => count.differs || count.first != number,
    }
}
