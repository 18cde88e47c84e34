//! Where in a head one is.

ghost use Rattle.std.specs.Prelude.{◌≡◌, ◌≢◌, ◌↔◌, ℕ, List, [], ◌∷◌, ◌++◌, IsTrue};
ghost use Rattle.http_wire.specs.Places.{is_text, IsDue, IsPlace};

/// What has come of a line.
#[derive(Clone, Copy, Debug, PartialEq, Eq)]
enum LinePart {
    /// No byte.
    Nothing,
    /// A CR, and no more.
    Return,
    /// More than that.
    Text,
}

impl LinePart {
    /// What has come of a line that begins with this byte, which isn't a line feed.
    fn begin(byte: u8) -> LinePart
        ensures cr { byte ≡ 13 → result ≡ LinePart.Return }
        ensures other { byte ≢ 13 → result ≡ LinePart.Text }
    {
        if byte == b'\r' {
            LinePart::Return
        } else {
            LinePart::Text
        }
    }

    /// Whether the line isn't empty, should it end here.
    fn is_text(self) -> bool
        ensures { result ≡ is_text self }
    {
        match self {
            LinePart::Text => true,
            LinePart::Nothing | LinePart::Return => false,
        }
    }
}

/// Where in a head one is, by the bytes so far. It says after which of them they are to be
/// parsed, so that the time for a head goes by its length and not by its lines: after the first
/// line that isn't empty, and after an empty line after it, which ends a head (RFC 9112, sections
/// 2.1 and 2.2). It keeps no bytes.
#[derive(Clone, Copy, Debug)]
pub struct HeadPlace {
    begun: bool,
    line: LinePart,
}

impl Default for HeadPlace {
    fn default() -> HeadPlace
        ensures { IsPlace [] result }
    {
        HeadPlace::new()
    }
}

impl HeadPlace {
    /// In front of the first byte.
    pub fn new() -> HeadPlace
        ensures { IsPlace [] result }
    {
        HeadPlace {
            begun: false,
            line: LinePart::Nothing,
        }
    }

    /// Takes a line feed, and answers whether a parse is due after it.
    fn end_line(&mut self) -> bool
        ensures due { (text : List ℕ) → IsPlace text self.old
            → (IsTrue result ↔ IsDue (text ++ 10 ∷ [])) }
        ensures place { (text : List ℕ) → IsPlace text self.old
            → IsPlace (text ++ 10 ∷ []) self.new }
    {
        let filled = self.line.is_text();
        let due = filled != self.begun;
        self.begun = self.begun || filled;
        self.line = LinePart::Nothing;
        due
    }

    /// Takes the next byte, and answers whether a parse is due after it: elsewhere no front of the
    /// bytes becomes a head.
    pub fn pass(&mut self, byte: u8) -> bool
        ensures due { (text : List ℕ) → IsPlace text self.old
            → (IsTrue result ↔ IsDue (text ++ byte ∷ [])) }
        ensures place { (text : List ℕ) → IsPlace text self.old
            → IsPlace (text ++ byte ∷ []) self.new }
    {
        if byte == b'\n' {
            return self.end_line();
        }
        self.line = match self.line {
            LinePart::Nothing => LinePart::begin(byte),
            LinePart::Return | LinePart::Text => LinePart::Text,
        };
        false
    }
}
