//! When a refusal is reported.
ghost use Rattle.std.specs.Prelude.{◌≡◌};
ghost use Rattle.http_listener.specs.Complaints.{after_line, line_due, no_complaint};

/// How long no further line on refusals of one kind is due after a line, in milliseconds. (profile)
pub(crate) const BETWEEN_LINES_MS: u64 = 60_000;

/// A line that is due.
#[derive(Clone, Copy, Debug, PartialEq, Eq)]
pub enum Line {
    /// On the first refusal of its kind.
    First,
    /// On this number of refusals since the line before.
    Since(u64),
}

/// What was reported of the refusals of one kind.
#[derive(Clone, Copy, Debug, PartialEq, Eq)]
pub struct Complaint {
    /// How many refusals the lines so far are about.
    pub told: u64,
    /// When the last line was due, in milliseconds, if one was.
    pub last_ms: Option<u64>,
}

impl Complaint {
    /// Nothing was reported.
    pub fn new() -> Complaint
        ensures { result ≡ no_complaint }
    {
        Complaint {
            told: 0,
            last_ms: None,
        }
    }

    /// The line that is due at this moment, in milliseconds, after this number of refusals of the
    /// kind: one on the first refusal, and later at most one a minute, with the count.
    pub fn line(self, count: u64, now_ms: u64) -> Option<Line>
        ensures { result ≡ line_due self count now_ms }
    {
        if count <= self.told {
            return None;
        }
        let Some(last_ms) = self.last_ms else {
            return Some(Line::First);
        };
        match last_ms.checked_add(BETWEEN_LINES_MS) {
            Some(next_ms) if next_ms <= now_ms => Some(Line::Since(count - self.told)),
            _ => None,
        }
    }

    /// What was reported after that line, at the same moment and count: the first line is about one
    /// refusal, and a later one about all.
    pub fn after(self, line: Option<Line>, count: u64, now_ms: u64) -> Complaint
        ensures { result ≡ after_line self line count now_ms }
    {
        let told = match line {
            Some(Line::First) => 1,
            Some(Line::Since(_)) => count,
            None => return self,
        };
        Complaint {
            told,
            last_ms: Some(now_ms),
        }
    }
}
