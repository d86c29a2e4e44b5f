//! Planned RPL policies as forms: the sets under their names, and the policy step by step. It stands on `rpl_plans`, whose
//! steps they are, on `rpl_reader`, in whose profile they are, and on `rpl_meaning`, by which they mean what the plan says.
//! Its definitions are in `specs/`: how a guard becomes a condition (`Guards`), a step statements (`Statements`), and a plan
//! the forms of a text (`Forms`); `Sharing` takes each set of a plan once, and `Tests` says each test of a plan. That the
//! forms are in profile and mean what the plan says are the laws in `laws`.
#![tactic(auto)]

mod laws;

pub use laws::{
    guards_answer, plans_are_in_profile, plans_mean_their_steps, plans_name_their_sets,
};
