//! Worked examples: what is read of pages, and what is written, by hand.

ghost use Rattle.std.specs.Prelude.{◌≡◌, [], ◌∷◌, ◌++◌, Some, None, codes};
ghost use Rattle.page_text.specs.Pages.{Content, DoubleQuoted, SingleQuoted, read_text};
ghost use Rattle.page_text.specs.Written.{text_markup};

/// What a browser reads between tags and in values.
pub fn readings()
    ensures plain { read_text Content (codes "a > b") ≡ Some (codes "a > b") }
    ensures reference { read_text Content (codes "a &lt; b &amp;&amp; c")
        ≡ Some (codes "a < b && c") }
    ensures once { read_text Content (codes "&amp;lt;") ≡ Some (codes "&lt;") }
    ensures quotes { read_text DoubleQuoted (codes "&quot;it&#39;s&quot;")
        ≡ Some (34 ∷ 105 ∷ 116 ∷ 39 ∷ 115 ∷ 34 ∷ []) }
    ensures less_in_a_value { read_text DoubleQuoted (codes "<b>") ≡ Some (codes "<b>") }
    ensures quote_in_content { read_text Content (39 ∷ 34 ∷ []) ≡ Some (39 ∷ 34 ∷ []) }
    ensures other_quote { read_text SingleQuoted (34 ∷ []) ≡ Some (34 ∷ []) }
    ensures tag { read_text Content (codes "<b>") ≡ None }
    ensures end_of_value { read_text DoubleQuoted (34 ∷ codes " onclick=") ≡ None }
    ensures end_of_quoted { read_text SingleQuoted (39 ∷ []) ≡ None }
    ensures unfinished { read_text Content (codes "&lt") ≡ None }
    ensures carriage_return { read_text Content (codes "&#13;") ≡ Some (13 ∷ []) }
{}

/// What is written of texts.
pub fn writings()
    ensures script { text_markup (codes "<script>") ≡ codes "&lt;script&gt;" }
    ensures twice { text_markup (codes "&amp;") ≡ codes "&amp;amp;" }
    ensures quotes { text_markup (34 ∷ 39 ∷ []) ≡ codes "&quot;&#39;" }
    ensures nul { text_markup (0 ∷ 13 ∷ 10 ∷ []) ≡ 0xfffd ∷ codes "&#13;" ++ 10 ∷ [] }
    ensures turned { text_markup (0x202e ∷ 97 ∷ []) ≡ 0x202e ∷ 97 ∷ [] }
{}
