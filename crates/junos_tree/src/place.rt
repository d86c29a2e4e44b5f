//! Where a statement stands, and what it says there.

ghost use Rattle.std.specs.Prelude.{◌≡◌, true};
ghost use Rattle.junos_tree.specs.Tree.{inside_form, inside};

use crate::item::JunosForm;

/// Where a statement stands: outside blocks, directly in `policy-options`, in a prefix list, directly in a
/// policy or in a term, in `from {` or `then {` of the term without a name (true) or of a named one, or in a
/// block that is passed over.
#[derive(Clone, Copy, Debug, PartialEq, Eq)]
pub enum Place {
    Outside,
    Options,
    Members,
    InPolicy,
    InTerm,
    From(bool),
    Then(bool),
    Passed,
}

/// What a statement says: nothing that belongs to a policy, that a block is opened by its keyword alone, or
/// a form.
#[derive(Debug, Drop)]
pub(crate) enum Said {
    Foreign,
    Opens(Place),
    Says(JunosForm),
}

fn inside_form(form: &JunosForm) -> Place
    ensures { result ≡ inside_form form.now }
{
    match form {
        JunosForm::PrefixList(_) => Place::Members,
        JunosForm::Policy(_) => Place::InPolicy,
        JunosForm::Term(_) => Place::InTerm,
        _ => Place::Passed,
    }
}

/// What stands in the block of a statement that says this.
pub(crate) fn inside(said: &Said) -> Place
    ensures { result ≡ inside said.now }
{
    match said {
        Said::Foreign => Place::Passed,
        Said::Opens(place) => *place,
        Said::Says(form) => inside_form(form),
    }
}
