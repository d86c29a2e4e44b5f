ghost use Rattle.std.specs.Prelude.{◌≡◌, Bool};
ghost use Rattle.ios_reader.specs.Profile.{all_forms};
ghost use Rattle.ios_tree.specs.declared.item.IosForm.{IosForm as SpecForm};

use ios_tree::IosForm;

/// Which forms a caller takes; a statement of another form is of an unknown one to it.
pub trait Takes {
    ghost takes: { SpecForm → Bool };

    /// Whether a form is taken. It takes no memory.
    fn takes(form: &IosForm) -> bool
        ensures { result ≡ takes form.now };
}

/// A caller who takes all forms.
pub struct AllForms;

impl Takes for AllForms {
    ghost takes = { all_forms };

    fn takes(_form: &IosForm) -> bool {
        true
    }
}
