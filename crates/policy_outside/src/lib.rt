//! The outside of the policy translator: where texts are fetched from and where pieces of output are put,
//! as two traits, with fakes in memory and the real files and streams. It stands on std alone.
//! Its definitions are in `specs/`: `Shelf` says what one call of `fetch` may do, `Sink` what one call of
//! `put` may do, `Texts` what the text under a name is, and `Counts` when a count has risen.
#![tactic(auto)]

mod counts;
mod faults;
mod file_shelf;
mod memory_shelf;
mod memory_sink;
mod shelf;
mod sink;
mod write_sink;

pub use faults::{FetchFault, Memory, PutFault};
pub use file_shelf::FileShelf;
pub use memory_shelf::MemoryShelf;
pub use memory_sink::MemorySink;
pub use shelf::Shelf;
pub use sink::{Sink, put_line, put_lines};
pub use write_sink::WriteSink;
