// The unit file: its records, a reader that moves through borrowed bytes, and a writer.
#![tactic(auto)]

pub mod reader;
pub mod record;
pub mod writer;

pub use reader::{Reader, check_file};
pub use record::Record;
pub use writer::Writer;
