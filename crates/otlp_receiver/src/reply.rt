//! What requests to a service of exports are answered that it doesn't take, under which hosts it may
//! be asked, and how many answers it gave.
//!
//! [`Hosts`] are the hosts of a service. [`Denial`] says why a request is refused, in which
//! [`Format`] a response says so. [`Tallies`] count the answers by their status, and [`Strays`]
//! say which other signals were posted.

mod denial;
mod format;
mod hosts;
mod judge;
mod page;
mod request;
mod strays;
mod tally;

pub use denial::{Denial, denial_response, fill_denial, fill_options, fill_taken};
pub use format::{Format, add_format};
pub use hosts::{Hosts, asked_host};
pub use judge::{denial_by, head_denial, may_ask};
pub use page::{fill_page, is_read};
pub use request::{denial_format, is_export, is_export_path, is_json, other_signal, path_of};
pub use strays::Strays;
pub use tally::Tallies;
