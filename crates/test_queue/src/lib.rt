//! Tests, over public calls alone, of the queue of spans, its ledgers, and its retries.
//!
//! Contracts say what each call answers. What they leave open is here: that memory which is there
//! is used, that each call for memory may be refused, that none is taken or freed under a lock, how
//! large queues and ledgers do, and what is written and shown. Desks are also compared with plain
//! lists. The crate has no items of its own.
#![tactic(auto)]

#[cfg(test)]
mod tests;
