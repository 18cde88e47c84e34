//! What a soak found, and the status that the program ends with.
ghost use Rattle.std.specs.Prelude.{◌≡◌, ◌≤◌, ◌↔◌};
ghost use Rattle.trace_demo.specs.Verdicts.{IsSound};

/// What a soak found.
#[derive(Debug, Clone, Copy, PartialEq, Eq)]
pub(crate) struct Verdict {
    /// Whether in each round each span was found in exactly one place.
    pub(crate) is_balanced: bool,
    /// Whether the spans that were named as lost were just those of the batches that came to
    /// nothing, each with the reason of its batch.
    pub(crate) are_lost_named: bool,
    /// Whether each body that came again was the same.
    pub(crate) are_equal: bool,
    /// Whether each batch was kept that a reply said was taken.
    pub(crate) are_delivered_kept: bool,
    /// Whether the processor's own counts are those of what was found.
    pub(crate) are_counted: bool,
    /// Whether memory stayed flat.
    pub(crate) is_flat: bool,
}

impl Verdict {
    /// The program's status: 0 where all of it holds, and else 1.
    pub(crate) fn status(&self) -> u8
        ensures least { result ≤ 1 }
        ensures sound { (result ≡ 0) ↔ IsSound self.now }
    {
        let is_balanced = self.is_balanced && self.are_lost_named && self.are_counted;
        let is_told = self.are_equal && self.are_delivered_kept;
        if is_balanced && is_told && self.is_flat {
            0
        } else {
            1
        }
    }
}
