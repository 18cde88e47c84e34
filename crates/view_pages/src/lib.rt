//! The pages that show traces.
//!
//! A page is appended to a text. Nothing here opens a file or a socket, or keeps anything: spans
//! come in, and a page for a browser goes out. Each text that came from outside is written so that
//! a browser reads exactly that text, and no part of it as markup.
#![tactic(auto)]

mod date;
mod html;
mod list;
mod page;
mod panel;
mod pieces;
mod row;
mod style;
mod times;
mod value;
mod worked;

pub use list::{write_list_page, write_mistake_page, write_notice_page};
pub use pieces::TracePage;
pub use style::STYLE;
