//! Worked examples of the text of a double, with values that were written out by hand. The checker
//! computes what the definitions make of each, and compares.
//!
//! The function does nothing when it is called.

ghost use Rattle.std.specs.Prelude.{◌≡◌, ◌-◌, ◌*◌, ◌+◌, ◌^◌, codes};
ghost use Rattle.page_text.specs.Doubles.{page_text};

/// Doubles and their texts. One is 1023 times 2^52 by its bits.
pub fn doubles()
    ensures zero { page_text 0 ≡ codes "0" }
    ensures minus_zero { page_text (2 ^ 63) ≡ codes "-0" }
    ensures one { page_text (1023 * 2 ^ 52) ≡ codes "1" }
    ensures two_and_a_half { page_text 4_612_811_918_334_230_528 ≡ codes "2.5" }
    ensures tenth { page_text 4_591_870_180_066_957_722 ≡ codes "0.1" }
    ensures third { page_text 4_599_676_419_421_066_581 ≡ codes "0.3333333333333333" }
    ensures pi { page_text 4_614_256_656_552_045_848 ≡ codes "3.141592653589793" }
    ensures minus { page_text (2 ^ 63 + 4_596_373_779_694_328_218) ≡ codes "-0.2" }
    ensures micro { page_text 4_517_329_193_108_106_637 ≡ codes "0.000001" }
    ensures large { page_text 4_921_056_587_992_461_136 ≡ codes "1000000000000000000000" }
    ensures least { page_text 1 ≡ codes "1*2^-1074" }
    ensures greatest { page_text (2047 * 2 ^ 52 - 1) ≡ codes "9007199254740991*2^971" }
    ensures infinite { page_text (2047 * 2 ^ 52) ≡ codes "Infinity" }
    ensures minus_infinite { page_text (4095 * 2 ^ 52) ≡ codes "-Infinity" }
    ensures no_number { page_text (2047 * 2 ^ 52 + 1) ≡ codes "NaN" }
{}
