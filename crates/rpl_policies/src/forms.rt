// A plan as the forms of a text.
ghost use Rattle.std.specs.Prelude.{◌≡◌, ◌++◌, ◌∷◌, [], IfOk, OnOk};
ghost use Rattle.rpl_forms.specs.declared.item.Header.TheVariants.{Policy as HeadsPolicy};
ghost use Rattle.rpl_forms.specs.declared.item.RplForm.TheVariants.{Header as OfHeader, End as IsEnd};
ghost use Rattle.rpl_layout.specs.Forms.{HasFew, forms_of};
ghost use Rattle.rpl_layout.specs.Sharing.{Tells, sets_of, written_by, tests_of};
ghost use Rattle.rpl_layout.specs.Statements.{steps_forms};
ghost use Rattle.rpl_policies.specs.Names.{writing};
ghost use Rattle.rpl_policies.specs.Noting.{no_sets, noted_tests};
ghost use Rattle.rpl_policies.specs.Own.{own};

use crate::blocks::push_blocks;
use crate::names::Names;
use crate::noting::sets_of;
use crate::sets::PlanSets;
use crate::statements::push_steps;
use route_types::{Memory, Row};
use rpl_forms::{Header, PolicyHeader, RplForm};
use rpl_plans::PlannedStep;
use std::alloc::Global;

// The block of the policy.
fn push_policy(
    alloc: Global,
    out: &mut Row<RplForm>,
    names: &Names,
    steps: &[PlannedStep],
) -> Result<(), Memory>
    ensures { OnOk result (out.new ≡ out.old ++ (OfHeader (HeadsPolicy (record { name = names.now.name.now; parameters = [] })) ∷ (steps_forms (writing names.now) steps.now ++ IsEnd ∷ []))) }
{
    let name = Row::from_slice(alloc, names.name)?;
    out.push(RplForm::Header(Header::Policy(PolicyHeader {
        name,
        parameters: Row::new(alloc),
    })))?;
    push_steps(alloc, out, names, steps)?;
    out.push(RplForm::End)
}

// The forms over sets that were noted.
fn forms_over(
    alloc: Global,
    name: &[u8],
    sets: &PlanSets,
    steps: &[PlannedStep],
) -> Result<Row<RplForm>, Memory>
    ensures forms { IfOk result (λ forms. forms ≡ forms_of name.now sets.now (written_by own name.now sets.now) steps.now) }
    ensures few { OnOk result (HasFew sets.now) }
{
    let mut forms = Row::new(alloc);
    push_blocks(alloc, &mut forms, name, sets)?;
    let names = Names { name, sets };
    push_policy(alloc, &mut forms, &names, steps)?;
    Ok(forms)
}

fn forms_by_own(alloc: Global, name: &[u8], steps: &[PlannedStep]) -> Result<Row<RplForm>, Memory>
    ensures forms { IfOk result (λ forms. forms ≡ forms_of name.now (sets_of own steps.now) (written_by own name.now (sets_of own steps.now)) steps.now) }
    ensures few { OnOk result (HasFew (sets_of own steps.now)) }
{
    let sets = sets_of(alloc, steps)?;
    let forms = forms_over(alloc, name, &sets, steps)?;
    Ok(forms)
}

/// The forms of a text that defines a policy of this name, which does what the steps do: each set that their tests ask for
/// once, named `NAME-p1`, `NAME-c1`, `NAME-a1` and so on in the order of first use, and then the policy (Cisco IOS XR
/// Routing Configuration Guide, 'Implementing Routing Policy'). The name is any text. The time is near-linear in the size of
/// the steps. The error is want of memory; it comes too where the text of an AS-path pattern spells no IOS pattern, as no
/// text of a plan does.
pub fn policy_forms(
    alloc: Global,
    name: &[u8],
    steps: &[PlannedStep],
) -> Result<Row<RplForm>, Memory>
    // They are the forms of the steps, by whatever tests sets are told apart.
    ensures forms { IfOk result (λ forms. (tells : Tells) → forms ≡ forms_of name.now (sets_of tells steps.now) (written_by tells name.now (sets_of tells steps.now)) steps.now) }
    // There are fewer than 2^63 sets of each sort.
    ensures few { IfOk result (λ _. (tells : Tells) → HasFew (sets_of tells steps.now)) }
{
    let forms = forms_by_own(alloc, name, steps)?;
    Ok(forms)
}
