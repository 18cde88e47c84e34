//! What `trace-demo` is asked for.
ghost use Rattle.std.specs.Prelude.{◌≡◌, ◌↔◌, IfSome, IsNone};
ghost use Rattle.trace_demo.specs.Args.{IsInRange};

/// What `trace-demo` is asked for. Its numbers are in their ranges. (the ranges: profile)
#[derive(Debug, Clone, Copy, PartialEq, Eq)]
pub struct DemoArgs {
    /// What the generator of the first thread begins with. That of each further thread begins with
    /// one more than that of the thread before it, modulo 2^64.
    pub seed: u64,
    /// How many threads end spans: 1 to 63.
    pub threads: usize,
    /// How many spans each of them ends: 1 to 1,000,000.
    pub spans: u64,
    /// The most spans that wait: 1 to 65,536.
    pub queue: usize,
    /// The most spans of a batch: 1 to `queue`.
    pub batch: usize,
    /// How many spans a soak ends, on all threads together: 1 to 1,000,000,000. With 0 there is no
    /// soak.
    pub soak: u64,
    /// By how many kilobytes memory may rise after a soak's first rounds.
    pub slack: u64,
    /// Whether counts are shown besides.
    pub is_verbose: bool,
    ghost in_range: { IsInRange threads spans queue batch },
}

/// By how many kilobytes memory may rise, where that isn't named. (profile)
pub(crate) const DEFAULT_SLACK: u64 = 2_048;

impl DemoArgs {
    /// What is asked for by these numbers, with the defaults of all else. `None` where one of them
    /// is out of its range.
    pub fn new(
        seed: u64,
        threads: usize,
        spans: u64,
        queue: usize,
        batch: usize,
    ) -> Option<DemoArgs>
        ensures refused { IsNone result ↔ ¬ IsInRange threads spans queue batch }
        ensures value { IfSome result (λ a. (a.seed ≡ seed) × (a.threads ≡ threads)
            × (a.spans ≡ spans) × (a.queue ≡ queue) × (a.batch ≡ batch)) }
    {
        let are_few = (1..=63).contains(&threads) && (1..=1_000_000).contains(&spans);
        let fits = (1..=65_536).contains(&queue) && (1..=queue).contains(&batch);
        if !are_few || !fits {
            return None;
        }
        Some(DemoArgs {
            seed,
            threads,
            spans,
            queue,
            batch,
            soak: 0,
            slack: DEFAULT_SLACK,
            is_verbose: false,
        })
    }
}
