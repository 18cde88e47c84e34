//! What the definition of a variable's value means.

ghost use Rattle.otel_settings.specs.LastPairs.{LastCounts};

/// The value of a name is that of the last pair with the name, whatever comes before; a name that
/// no pair has has none. (profile)
pub fn last_counts()
    ensures { LastCounts }
{}
