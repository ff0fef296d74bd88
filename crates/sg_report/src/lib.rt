//! One attribute of every node of a file, as the lines of a report.
#![tactic(auto)]

mod answers;
mod attrs;
mod found;
pub mod laws;
mod lines;
mod reports;
mod words;

pub use answers::{Report, ReportFault};
pub use attrs::known;
pub use reports::report;
pub use words::halves;
