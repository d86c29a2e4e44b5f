//! Planned Junos policies as definitions: AS paths, communities and subroutines under their names, and the policy step by step.
//! It stands on `junos_plans`, whose steps they are, on `junos_text`, which writes such definitions, on `junos_reader`, in whose
//! profile they are, and on `junos_meaning`, by which they mean what the plan says. Its definitions are in `specs/`: how what is
//! planned is named (`Writing`), how guards, lists and steps become terms (`Terms`), which actions changes become (`Actions`), the
//! definitions of a plan (`Options`), what is named and what fits (`Uses`), and each definition once (`Sharing`). That the
//! definitions are in profile and mean what the plan says are the laws in `laws`.
#![tactic(auto)]

mod laws;

pub use laws::{
    definitions_of_plans_fit, lists_answer, plans_are_in_profile, plans_mean_their_steps,
    plans_name_their_definitions,
};
