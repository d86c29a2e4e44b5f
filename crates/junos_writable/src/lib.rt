//! Planned Junos policies as texts: the laws that the definitions of planned steps whose values fit may be written, that all
//! names that they have and use are the policy's own, and that any tree that says them has the policy in profile. It stands on
//! `junos_layout`, whose definitions they are, on `junos_text`, which writes them, and on `junos_reader`, which says what a form
//! names. Its definitions are in `specs/`: `Names` says which names are a policy's own, and which bytes no name holds. The laws
//! are in `laws`.
#![tactic(auto)]

mod laws;

pub use laws::{
    plain_words_name_policies, plans_may_be_written, trees_have_forms, written_plans_are_in_profile,
};
