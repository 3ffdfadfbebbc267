//! The outside as every reader and writer above sees it: shelves that files are read from, and sinks that
//! bytes are put into. It stands on `thiserror` alone. `fetch_into` hands a whole file of any shelf to a taker, piece
//! by piece, `fetch` gives it as a list, and `send` puts all bytes into any sink; each refusal is tied to what the
//! outside did in that very call. Of the twins in memory the steady ones never fail, and the others at the calls that are listed.
#![tactic(auto)]

mod failing_calls;
mod fetching;
mod laws;
mod memory_shelf;
mod memory_sink;
mod sending;
mod shelves;
mod sinks;
mod steady_shelf;
mod steady_sink;
mod takers;

pub use fetching::{FetchError, fetch, fetch_into};
pub use laws::a_later_rise_is_a_rise;
pub use memory_shelf::MemoryShelf;
pub use memory_sink::MemorySink;
pub use sending::{SendError, send};
pub use shelves::{Pull, Shelf};
pub use sinks::{PutDone, Sink};
pub use steady_shelf::SteadyShelf;
pub use steady_sink::SteadySink;
pub use takers::Taker;
