//! How many passes a processor has.

/// The most passes that a processor may have (profile).
pub const MAX_PASSES: usize = 64;

// No clause says the number itself.
const _: () = prove!(MAX_PASSES == 64);
