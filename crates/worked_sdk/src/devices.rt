//! Failures that are counted, and calls that fail (profile).

ghost use Rattle.std.specs.Prelude.{◌≡◌, ◌^◌, ◌-◌, false, true};
ghost use Rattle.http_wire.specs.Devices.{one_more};
ghost use Rattle.http_wire.specs.Wires.{is_failing};
ghost use Rattle.http_wire.specs.declared.wire.FailingCalls.TheVariants.{From, Never, Once};

/// A count stops at its greatest value.
pub fn counts()
    ensures first { one_more 0 ≡ 1 }
    ensures last { one_more (2 ^ 64 - 2) ≡ 2 ^ 64 - 1 }
    ensures greatest { one_more (2 ^ 64 - 1) ≡ 2 ^ 64 - 1 }
{}

/// Which calls of a wire fail.
pub fn calls()
    ensures never { is_failing Never 0 ≡ false }
    ensures before { is_failing (Once 2) 1 ≡ false }
    ensures once { is_failing (Once 2) 2 ≡ true }
    ensures after { is_failing (Once 2) 3 ≡ false }
    ensures before_all { is_failing (From 2) 1 ≡ false }
    ensures first_of_all { is_failing (From 2) 2 ≡ true }
    ensures later { is_failing (From 2) 3 ≡ true }
{}
