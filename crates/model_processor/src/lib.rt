//! What the passes of a processor and the worker of a batch processor know, how each call changes
//! that, and how it relates to the queue: definitions.
#![tactic(auto)]
