//! A server of HTTP/1.1 whose peers are served by turns on one thread: a peer that is silent, or
//! drips, or takes a long answer, holds up no other one. A program gives it the service that
//! answers, an [`http_connection::Service`].
//!
//! - [`listen`] takes an address, and [`Peers`] are the peers that connect there: in each
//!   [`Peers::round`] those that are ready have their turns.
//! - [`Peers::stop`] accepts no more peers, and what was begun may finish; [`Peers::watch`] has a
//!   program stopped from outside.
//! - The rules: [`Accepting`] says when further peers are accepted, [`PeerClock`] when a peer is
//!   over its time, [`Longest`] which one is closed where there is no room, [`Pending`] how many
//!   bytes may be pending, and [`Complaints`] when a refusal is reported.
//! - [`Dated`] is a service over another one, whose answers say when they were made.
//! - [`Cors`] is a service over another one, for requests from pages of other origins (Fetch standard,
//!   "CORS protocol"): a browser lets a page post to a server of another origin, and read what it
//!   answers, only where the answers say so. To its answers at one path it adds the fields that let
//!   pages of some [`Origins`] post there; no other page gets them, and no other path.
#![tactic(auto)]

mod accepting;
mod clock;
mod complaint;
mod complaints;
mod cors;
mod cors_fields;
mod crowd;
mod dated;
mod listening;
mod longest;
mod origins;
mod peer;
mod peers;
mod pending;
mod settings;

pub use accepting::{Accepting, TICK_MS};
pub use clock::{Due, PeerClock, Sight, Stage, StageTimes};
pub use complaint::{Complaint, Line};
pub use complaints::Complaints;
pub use cors::Cors;
pub use dated::Dated;
pub use listening::{ListenFault, listen};
pub use longest::{Longest, Waiter};
pub use origins::{Origins, is_origin};
pub use peer::{Peer, Turn};
pub use peers::{End, Peers, Round};
pub use pending::Pending;
pub use settings::Settings;
