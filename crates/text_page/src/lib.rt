//! Texts given to a sink, and a page on which they are gathered first.
#![tactic(auto)]

mod page;
mod print;

pub use page::{Page, give_page, put};
pub use print::{WriteEnd, write_pieces, write_text};
