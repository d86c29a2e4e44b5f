//! Guarded steps as the text of a Junos policy-statement. It stands on `junos_plans`, which says of steps what Junos can ask and
//! do, on `junos_policies`, which gives the definitions of a plan, on `junos_text`, which writes them, and on the laws of
//! `junos_layout` and `junos_writable`. Its definition is `specs/Printed`: what a printed text is.
#![tactic(auto)]

mod print;

pub use print::print_junos_policy;
