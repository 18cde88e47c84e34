//! Worked examples of what searches ask for and find, with values that were written out by hand.
//! The checker computes what the definitions make of each, and compares.
//!
//! Each function is a group of examples. Its clauses are the examples, and it does nothing when it
//! is called.

ghost use Rattle.std.specs.Prelude.{◌≡◌, ◌∷◌, ◌++◌, [], ℕ, Err, None, Ok, Some, codes, false, negsuc, pos};
ghost use Rattle.std.specs.Prelude.{true};
ghost use Rattle.model_message.specs.AnyValue.{AnyValue};
ghost use Rattle.view_query.specs.Matching.{contains, fits_number, has_value, is_value, spells};
ghost use Rattle.view_query.specs.Numbers.{nanos_of, number_of};
ghost use Rattle.view_query.specs.Reading.{term_of, terms_of};
ghost use Rattle.view_query.specs.Terms.{TestView};
ghost use Rattle.view_query.specs.Words.{words_of};
ghost use Rattle.view_query.specs.declared.fault.Why.TheVariants as whys;
ghost use Rattle.view_query.specs.declared.term.Order.TheVariants as orders;
ghost use Rattle.view_query.specs.declared.term.TextSign.TheVariants as texts;

/// Words begin after spaces, but for those inside quotes.
pub(crate) fn words()
    ensures gaps { words_of (codes " a  b ") ≡ (1, codes "a") ∷ (4, codes "b") ∷ [] }
    // n:"a b" c
    ensures quotes { words_of (codes "n:" ++ 34 ∷ codes "a b" ++ 34 ∷ codes " c")
        ≡ (0, codes "n:" ++ 34 ∷ codes "a b" ++ 34 ∷ []) ∷ (8, codes "c") ∷ [] }
    ensures none { words_of (codes "  ") ≡ [] }
{}

/// Numbers and durations are whole and below 2^64.
#[tactic(auto, unfolding(crate::specs::Numbers::unit_of))]
pub(crate) fn numbers()
    ensures zeros { number_of (codes "0050") ≡ Some 50 }
    ensures last { number_of (codes "18446744073709551615") ≡ Some 18446744073709551615 }
    ensures next { number_of (codes "18446744073709551616") ≡ None }
    ensures signed { number_of (codes "-1") ≡ None }
    ensures millis { nanos_of (codes "100ms") ≡ Some 100000000 }
    ensures hours { nanos_of (codes "2h") ≡ Some 7200000000000 }
    ensures unitless { nanos_of (codes "100") ≡ None }
    ensures tenths { nanos_of (codes "1.5s") ≡ None }
{}

/// Terms, and words that are none.
#[tactic(auto, unfolding(crate::specs::Reading::sign_of, crate::specs::Reading::text_test, crate::specs::Reading::order_test, crate::specs::Reading::word_test, crate::specs::Numbers::unit_of))]
pub(crate) fn terms()
    ensures minus { term_of (codes "-root")
        ≡ Ok (record { is_negated = true; test = TestView.root }) }
    ensures word { term_of (codes "cart")
        ≡ Ok (record { is_negated = false; test = TestView.name texts.Has (codes "cart") }) }
    // "error"
    ensures quoted { term_of (34 ∷ codes "error" ++ 34 ∷ [])
        ≡ Ok (record { is_negated = false; test = TestView.name texts.Has (codes "error") }) }
    ensures attribute { term_of (codes "http.status=503") ≡ Ok (record {
      is_negated = false;
      test = TestView.attribute (codes "http.status") texts.Is (codes "503");
    }) }
    ensures number { term_of (codes "n<=7")
        ≡ Ok (record { is_negated = false; test = TestView.number (codes "n") orders.AtMost 7 }) }
    ensures sign { term_of (codes "service>3") ≡ Err whys.Sign }
    // a="b
    ensures open { term_of (codes "a=" ++ 34 ∷ codes "b") ≡ Err whys.Open }
    // a="b"c
    ensures after { term_of (codes "a=" ++ 34 ∷ codes "b" ++ 34 ∷ codes "c") ≡ Err whys.Quote }
    ensures second { terms_of (codes "error =x") ≡ Err (record { at = 6; why = whys.Word }) }
{}

/// Values.
pub(crate) fn values()
    ensures cases { contains (codes "ERR") (codes "an error") ≡ true }
    ensures last { contains (codes "or") (codes "an error") ≡ true }
    ensures longer { contains (codes "errors") (codes "an error") ≡ false }
    ensures above { fits_number orders.Above 5 5 ≡ false }
    ensures least { fits_number orders.AtLeast 5 5 ≡ true }
    ensures minus { spells (codes "-7") (negsuc 6) ≡ true }
    ensures plus { spells (codes "7") (negsuc 6) ≡ false }
    ensures word { is_value (codes "true") (AnyValue.bool true) ≡ true }
    ensures text { is_value (codes "503") (AnyValue.text (codes "503")) ≡ true }
    ensures double { is_value (codes "0") (AnyValue.double 0) ≡ false }
    ensures any { has_value [] (AnyValue.int (pos 503)) ≡ true }
{}
