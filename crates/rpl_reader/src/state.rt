//! What stands before an item.
ghost use Rattle.std.specs.Prelude.{◌≡◌, ◌<◌, ◌≤◌, ◌+◌, ◌^◌, ℕ, List, ◌||◌, false, IfOk, OnOk, bytes_eq};
ghost use Rattle.std.specs.List.{list_any};
ghost use Rattle.policy_text.specs.NameSets.{has_name};
ghost use Rattle.text_words.specs.declared.rpl_blocks.BlockKind.{BlockKind as SpecKind};
ghost use Rattle.rpl_facts.specs.Blocks.{heads};
ghost use Rattle.rpl_reader.specs.Facts.{nothing_before, behind_form};
ghost use Rattle.rpl_facts.specs.Told.{kind_code};
ghost use Rattle.rpl_reader.specs.Known.{known_block, told};
ghost use Rattle.rpl_reader.specs.Faults.{open_behind};

use crate::depth::ifs_behind;
use crate::known::{Known, is_reached_block};
use policy_text::{NameSet, add_name};
use route_types::{Memory, Row};
use rpl_calls::{name_under, opens, parameters_in};
use rpl_facts::{add_block, name_opened};
use rpl_forms::RplForm;
use std::alloc::Global;
use std::collections::BTreeSet;

/// The blocks that begin before; the name and the parameters of the block that is open, and whether it is reached; and
/// how many `if`s are open.
#[derive(Drop)]
pub(crate) struct State<'a> {
    pub(crate) stands: NameSet<'a>,
    pub(crate) name: &'a [u8],
    pub(crate) parameters: NameSet<'a>,
    pub(crate) reached: bool,
    pub(crate) ifs: u64,
}

// Before the first item.
pub(crate) fn state_of_start<'a>(alloc: Global) -> State<'a>
    ensures told { told result ≡ nothing_before }
    ensures reached { result.reached ≡ false }
    ensures ifs { result.ifs ≡ 0 }
{
    State {
        stands: BTreeSet::new(alloc),
        name: b"",
        parameters: BTreeSet::new(alloc),
        reached: false,
        ifs: 0,
    }
}

// Whether the block is reached that is open behind a form.
pub(crate) fn open_behind<'a>(known: &Known<'a>, form: &'a RplForm, reached: bool) -> bool
    ensures { result ≡ open_behind (known_block known.now) form.now reached }
{
    match opens(form) {
        None => reached,
        Some(kind) => is_reached_block(known, kind, name_under(form)),
    }
}

// The names as a set.
fn set_of<'a>(alloc: Global, names: &'a [Row<u8>]) -> Result<NameSet<'a>, Memory>
    ensures { IfOk result (λ set. (q : List ℕ) → has_name set q 0 0 ≡ list_any (bytes_eq q) names.now) }
{
    let mut set = BTreeSet::new(alloc);
    let mut rest = names;
    while let [first, tail @ ..] = rest {
        add_name(&mut set, first.as_slice(), 0, 0)?;
        rest = tail;
    }
    Ok(set)
}

// Adds the block that a form begins, if it begins one under a name.
fn add_begun<'a>(names: &mut NameSet<'a>, form: &'a RplForm) -> Result<(), Memory>
    ensures { OnOk result ((kind : SpecKind) (q : List ℕ) → has_name names.new q (kind_code kind) 0 ≡ (heads kind q form.now || has_name names.old q (kind_code kind) 0)) }
{
    add_block(names, opens(form), name_opened(form))?;
    Ok(())
}

// Behind one more form.
pub(crate) fn pass_form<'a>(
    alloc: Global,
    state: &mut State<'a>,
    form: &'a RplForm,
    reached: bool,
) -> Result<(), Memory>
    requires { state.old.ifs < 2 ^ 63 }
    ensures told { OnOk result (told state.new ≡ behind_form form.now (told state.old)) }
    ensures reached { OnOk result (state.new.reached ≡ reached) }
    ensures ifs { OnOk result (state.new.ifs ≤ state.old.ifs + 1) }
{
    add_begun(&mut state.stands, form)?;
    state.reached = reached;
    if opens(form).is_none() {
        state.ifs = ifs_behind(form, state.ifs);
        return Ok(());
    }
    let parameters = set_of(alloc, parameters_in(form))?;
    state.name = name_under(form);
    state.parameters = parameters;
    state.ifs = 0;
    Ok(())
}
