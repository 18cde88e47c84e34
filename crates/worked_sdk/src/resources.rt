//! Texts of resource attributes.

ghost use Rattle.std.specs.Prelude.{◌≡◌, [], ◌∷◌, Some, None, codes};
ghost use Rattle.otel_settings.specs.ResourcePairs.{pairs_of};

/// Texts that are read: the standard's form, blanks, W3C Baggage's example of percent-encoding, and
/// what else a key and a value may have.
pub fn read_texts()
    ensures two { pairs_of (codes "key1=value1,key2=value2")
        ≡ Some ((codes "key1", codes "value1") ∷ (codes "key2", codes "value2") ∷ []) }
    ensures blanks { pairs_of (codes " a = b ,\tc\t=d")
        ≡ Some ((codes "a", codes "b") ∷ (codes "c", codes "d") ∷ []) }
    // `%C3%A9` is the character U+00E9.
    ensures percent { pairs_of (codes "userId=Am%C3%A9lie")
        ≡ Some ((codes "userId", 65 ∷ 109 ∷ 195 ∷ 169 ∷ 108 ∷ 105 ∷ 101 ∷ []) ∷ []) }
    ensures marks { pairs_of (codes "a%2cb=c%3Dd%2C")
        ≡ Some ((codes "a,b", codes "c=d,") ∷ []) }
    ensures empty_value { pairs_of (codes "a=") ≡ Some ((codes "a", []) ∷ []) }
    ensures second_equals { pairs_of (codes "a=b=c") ≡ Some ((codes "a", codes "b=c") ∷ []) }
    ensures same_key { pairs_of (codes "a=b,a=c")
        ≡ Some ((codes "a", codes "b") ∷ (codes "a", codes "c") ∷ []) }
{}

/// Texts that aren't read: one fault, and none of the pairs counts.
#[tactic(auto, unfolding(otel_settings::specs::ResourcePairs::pairs_of, otel_settings::specs::ResourcePairs::member_of, otel_settings::specs::ResourcePairs::pair_of, httparse::specs::Grammar::trim_ows, httparse::specs::Grammar::is_token_byte, otel_settings::specs::ResourcePairs::is_value_byte, text_words::specs::Words::bytes_of))]
pub fn other_texts()
    ensures nothing { pairs_of [] ≡ None }
    ensures no_equals { pairs_of (codes "a=b,c") ≡ None }
    ensures no_key { pairs_of (codes "=b") ≡ None }
    ensures last_comma { pairs_of (codes "a=b,") ≡ None }
    ensures properties { pairs_of (codes "a=b;c=d") ≡ None }
    ensures blank_inside { pairs_of (codes "a=b c") ≡ None }
    ensures quotes { pairs_of (codes "a=\"b\"") ≡ None }
    ensures no_token { pairs_of (codes "a:b=c") ≡ None }
    ensures not_hexadecimal { pairs_of (codes "a=%zz") ≡ None }
    ensures cut_percent { pairs_of (codes "a=%") ≡ None }
    ensures not_utf8 { pairs_of (codes "a=%C3") ≡ None }
{}
