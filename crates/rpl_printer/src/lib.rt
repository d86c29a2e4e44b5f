//! Guarded steps as the text of a policy in IOS XR Route Policy Language. It stands on `rpl_plans`, which says of steps what
//! RPL can ask and do, on `rpl_policies`, which gives the forms of a plan, on `rpl_text`, which writes them, and on the laws
//! of `rpl_layout` and `rpl_writable`. Its definitions are in `specs/`: `Printed` says what a printed text is, `Own` that a
//! text touches no name but the policy's own.
#![tactic(auto)]

mod print;

pub use print::print_rpl_policy;
