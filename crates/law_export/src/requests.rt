//! Laws of what replies and requests of HTTP mean: bytes mean one thing.
ghost use Rattle.law_export.specs.Meanings.{BytesMeanOneFault, BytesMeanOneReply};
ghost use Rattle.law_export.specs.Requests.{BytesMeanOnePost, BytesMeanOnePostFault};

/// Where no read fails and no memory is refused, the bytes alone say what they mean. If they mean a
/// reply, they mean nothing else. If there is none, they say why, but for a head with too many
/// fields that breaks off or goes wrong after them: either may be reported. (RFC 9112, sections 2
/// to 6; the limits, and that either may be reported: profile)
pub fn bytes_mean_one_thing()
    ensures reply { BytesMeanOneReply }
    ensures fault { BytesMeanOneFault }
{}

/// Where no read fails and no memory is refused, bytes that mean a request mean nothing else: its
/// method, its target, the values of its fields under each name, and its body. If there is none,
/// they say why, and whether its head or its body can't be had, but for a head with too many fields
/// that breaks off or goes wrong after them, and for one that stops in a target which no head can
/// have: either may be reported. (RFC 9112, sections 2 to 6; the limits, and that either may be
/// reported: profile)
pub fn bytes_mean_one_request()
    ensures post { BytesMeanOnePost }
    ensures fault { BytesMeanOnePostFault }
{}
