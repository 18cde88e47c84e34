//! The address that the command line names.
ghost use Rattle.std.specs.Prelude.{MatchOption};
ghost use Rattle.program_args.specs.Words.{texts_of};
ghost use Rattle.otlp_relay.specs.Command.{IsListenAddress, IsNoAddress};

use std::net::{IpAddr, Ipv4Addr};

/// The address to listen at, where `--address` was given these texts: the one that the first of
/// them spells, and 127.0.0.1 where there is none. `None` where it spells no IP address.
pub(crate) fn address_of(texts: &[String]) -> Option<IpAddr>
    ensures { MatchOption result (IsNoAddress (texts_of texts.now))
        (IsListenAddress (texts_of texts.now)) }
{
    let Some(text) = texts.first() else {
        return Some(IpAddr::V4(Ipv4Addr::LOCALHOST));
    };
    match text.parse::<IpAddr>() {
        Ok(address) => Some(address),
        Err(_) => None,
    }
}
