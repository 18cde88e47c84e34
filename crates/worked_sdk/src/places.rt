//! Where heads are parsed (RFC 9112, sections 2.1 and 2.2; profile).

ghost use Rattle.std.specs.Prelude.{codes};
ghost use Rattle.http_wire.specs.Places.{IsDue};

/// A parse is due after the first line that isn't empty, and after an empty line after it.
pub fn places()
    ensures front { ¬ (IsDue (codes "\r\n\n")) }
    ensures first { IsDue (codes "\r\nHTTP/1.1 200 OK\r\n") }
    ensures field { ¬ (IsDue (codes "HTTP/1.1 200 OK\r\nA: b\r\n")) }
    ensures unended { ¬ (IsDue (codes "HTTP/1.1 200 OK\r\n\r")) }
    ensures end { IsDue (codes "HTTP/1.1 200 OK\r\nA: b\r\n\r\n") }
    ensures feeds { IsDue (codes "HTTP/1.1 200 OK\n\n") }
{}
