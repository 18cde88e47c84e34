//! How much of a message is read.

ghost use Rattle.std.specs.Prelude.{◌≡◌};

/// How much of a message is read. (RFC 9110, section 5.4; RFC 9112, section 4; the numbers of the
/// default: profile)
#[derive(Clone, Copy, Debug, PartialEq, Eq)]
pub struct HeadLimits {
    /// The most bytes of a head, with the empty line that ends it: 16,384 by default.
    pub head: usize,
    /// The most fields of a head: 64 by default, and at most.
    pub fields: usize,
    /// The most bytes of a body: 65,536 by default, which is meant for replies.
    pub body: usize,
}

/// The most fields that a head may be allowed.
pub const MOST_FIELDS: usize = 64;

impl Default for HeadLimits {
    /// 16,384 bytes and 64 fields of a head, and 65,536 bytes of a body. (profile)
    fn default() -> HeadLimits
        ensures { result ≡ record { head = 16_384; fields = 64; body = 65_536 } }
    {
        HeadLimits {
            head: 16_384,
            fields: MOST_FIELDS,
            body: 65_536,
        }
    }
}
