//! Laws of an export, from a span's calls to the reply of the collector that takes its batch: each
//! is the contract of a function with an empty body, and holds of all values.
#![tactic(auto)]

mod delivery;
mod faults;
mod requests;
mod spans;
pub mod worked;

pub use delivery::a_batch_arrives;
pub use faults::faults_say_what_stands;
pub use requests::{bytes_mean_one_request, bytes_mean_one_thing};
pub use spans::{
    dropped_pairs_are_counted, end_laws, equality_laws, first_events_and_links_are_kept,
    groups_are_the_spans, keys_are_kept, last_value_counts, name_laws, one_row, status_laws,
    texts_are_cut,
};
