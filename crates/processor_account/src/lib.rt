//! What the accounts of a processor say, and how that changes with what its passes and its worker
//! are answered. They lie in a book under the processor's lock (`account_book`), and have no byte.
#![tactic(auto)]

mod pass;
mod passes;
mod state;
mod worker;

pub use pass::{
    Ends, Flushes, Pops, PopsAll, PopsLost, ShutsDown, SpanEnded, ToldFlushed, ToldLeft,
};
pub use passes::MAX_PASSES;
pub use state::AccountState;
pub use worker::{Drains, Drops, Hands, Leaves, Settled, Settles, Takes};
