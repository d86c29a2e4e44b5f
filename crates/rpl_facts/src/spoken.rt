//! The statements of the policies of a text.
ghost use Rattle.std.specs.Prelude.{◌≡◌, ◌++◌, ◌∷◌, List, IfOk, OnOk, option_map, None};
ghost use Rattle.rpl_forms.specs.declared.item.RplItem.{RplItem as SpecItem};
ghost use Rattle.rpl_calls.specs.Policies.{spoken_from, policy_line};
ghost use Rattle.rpl_facts.specs.Spoken.{spoken_in, line_in};

use route_types::{Memory, Row};
use rpl_calls::opens;
use rpl_forms::{BlockKind, RplForm, RplItem};
use std::alloc::Global;

/// A statement of a policy, and the first line of that policy.
#[derive(Clone, Copy)]
pub struct Spoken<'a> {
    pub line: &'a RplForm,
    pub item: &'a RplItem,
}

fn policy_line<'a>(kind: BlockKind, form: &'a RplForm) -> Option<&'a RplForm>
    ensures { line_in result ≡ policy_line kind form.now }
{
    match kind {
        BlockKind::Policy => Some(form),
        BlockKind::PrefixSet => None,
        BlockKind::CommunitySet => None,
        BlockKind::PathSet => None,
    }
}

// Adds a statement of the open policy, and gives the first line of the policy that is open behind an item.
#[tactic(auto, unfolding(rpl_calls::specs::Policies::spoken_from))]
fn push_spoken<'a>(
    row: &mut Row<Spoken<'a>>,
    line: Option<&'a RplForm>,
    item: &'a RplItem,
) -> Result<Option<&'a RplForm>, Memory>
    ensures { IfOk result (λ behind. (more : List SpecItem) → spoken_in row.new ++ spoken_from (line_in behind) more ≡ spoken_in row.old ++ spoken_from (line_in line.entry) (item.now ∷ more)) }
{
    if let Some(kind) = opens(&item.form) {
        return Ok(policy_line(kind, &item.form));
    }
    let Some(line) = line else {
        return Ok(None);
    };
    row.push(Spoken { line, item })?;
    Ok(Some(line))
}

/// The statements of the policies of a text, in text order. Its one error is want of memory.
#[tactic(auto, unfolding(rpl_calls::specs::Policies::spoken_from))]
pub fn statements_of<'a>(alloc: Global, items: &'a [RplItem]) -> Result<Row<Spoken<'a>>, Memory>
    ensures { IfOk result (λ row. spoken_in row ≡ spoken_from None items.now) }
{
    let mut row = Row::new(alloc);
    let mut line = None;
    let mut rest = items;
    while let [first, tail @ ..] = rest {
        line = push_spoken(&mut row, line, first)?;
        rest = tail;
    }
    Ok(row)
}
