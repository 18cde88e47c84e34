//! Bytes that are a reply, and bytes that are none (RFC 9112, sections 2 to 6; limits: profile).

ghost use Rattle.std.specs.Prelude.{◌++◌, [], codes, replicate, Err, None, Ok, Some};
ghost use Rattle.std.specs.List.{concat};
ghost use Rattle.retry_core.specs.declared.outcome.RetryAfter.TheVariants.{Seconds};
ghost use Rattle.http_wire.specs.declared.fault.HttpFault.TheVariants as faults;
ghost use Rattle.worked_sdk.specs.Replied.{usual, AreReply, AreNone, two_rejected, continue};
ghost use Rattle.worked_sdk.specs.Replied.{seven_bytes};

/// Replies. Interim heads before one are skipped, and bytes after one are left.
pub fn replies()
    ensures sized { AreReply (seven_bytes ++ two_rejected) [] 200 None (Ok two_rejected) }
    ensures between { AreReply (continue ++ seven_bytes ++ two_rejected ++ codes "HTTP")
        (codes "HTTP") 200 None (Ok two_rejected) }
    ensures to_the_end { AreReply (codes "HTTP/1.1 503 Busy\r\nRetry-After: 7\r\n\r\nwait") []
        503 (Some (Seconds 7)) (Ok (codes "wait")) }
    ensures without_body { AreReply (codes "HTTP/1.0 204\n\nwait") (codes "wait") 204 None (Ok []) }
    ensures cut { AreReply (seven_bytes ++ codes "wait") [] 200 None (Err faults.Ended) }
{}

/// No replies.
pub fn none()
    ensures cut { AreNone usual (codes "HTTP/1.1 2") [] faults.Ended }
    ensures bad { AreNone usual (codes "x") [] faults.BadHead }
    ensures large { AreNone (record usual { head = 4 }) (codes "HTTP/1.1 204\n\n")
        (codes "/1.1 204\n\n") faults.TooLarge }
    ensures interims { AreNone usual (concat (replicate 17 continue)) [] faults.BadHead }
{}
