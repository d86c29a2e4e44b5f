//! What the blocks of an RPL text define, and what its statements use. It stands on `rpl_calls`, which has the calls, and
//! on what lies below it. Its definitions are in `specs/`: blocks and what they hold (`Blocks`), what statements use
//! (`Uses`), and what is kept of these (`Told`, `Counts`, `Used`, `Spoken`).
#![tactic(auto)]

mod blocks;
mod counts;
mod spoken;
mod uses;

pub use blocks::{add_block, blocks_of, is_single, kind_code, name_opened, wide_sets};
pub use counts::{Count, counts_of, takes_other};
pub use spoken::{Spoken, statements_of};
pub use uses::{Used, push_uses};
