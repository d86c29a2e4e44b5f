//! What the table of constructs grants, the tests and changes of a policy can be said: the law that joins
//! `expressible_table` to `ios_lower` and `policy_core`. It stands on these three. Its definition is `specs/Granted`.
#![tactic(auto)]

mod laws;

pub use laws::granted_policies_are_sayable;
