//! The statements that set the communities of a set that is handed to their policy.
ghost use Rattle.std.specs.Prelude.{◌≡◌};
ghost use Rattle.name_maps.specs.Under.{under};
ghost use Rattle.rpl_calls.specs.Settings.{given_place, set_place};

use name_maps::NameMap;
use route_types::Rect;
use rpl_forms::{Action, PolicyStatement, RplForm, RplSet};

fn given_place<'a>(places: &NameMap<'a, usize>, set: &'a RplSet<Rect>) -> Option<usize>
    ensures { result ≡ given_place (under places.now.entries) set.now }
{
    match set {
        RplSet::Parameter(name) => places.get(name.as_slice()),
        _ => None,
    }
}

// The place, among the parameters, of the set whose communities a form sets, if it is one of them.
pub(crate) fn set_place<'a>(places: &NameMap<'a, usize>, form: &'a RplForm) -> Option<usize>
    ensures { result ≡ set_place (under places.now.entries) form.now }
{
    match form {
        RplForm::Statement(PolicyStatement::Act(Action::SetCommunity(setting))) => {
            given_place(places, &setting.set)
        }
        _ => None,
    }
}
