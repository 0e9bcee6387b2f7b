//! From lines to commands: the words of a line, the options of a verb, and the command that they amount to, by
//! the syntax of geli(8), which is POSIX option syntax (XBD, 12.2).
#![tactic(auto)]

mod commands;
mod cursor;
mod images;
mod kinds;
mod lines;
mod operands;
mod pass;
mod settings;
mod spans;
mod table;
mod verbs;
mod words;

pub use commands::{Command, JobWords, Usage};
pub use images::{ImageNames, images_of, provider_name};
pub use lines::{LINE_LIMIT, read_line};
pub use spans::{KeyWords, Sep, Span, SpanList};
pub use verbs::{Needs, Traits};
pub use words::{Words, changes, read_words};
