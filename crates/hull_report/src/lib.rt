//! The report: its lines, the one text of each list of lines, and the lines of a text.
#![tactic(auto)]

mod fields;
mod further;
mod line;
mod names;
mod outcomes;
mod read_back;
mod reading;
mod spelled;
mod spelled_further;
mod spelled_lines;
mod spelled_outcomes;
mod spelled_verdicts;
mod verdicts;
mod word;
mod words;
mod writing;

pub use line::{Call, CaseEnd, LimitLine, Line, ReasonLine, SafeBox, ShownLine, Sides};
pub use names::{Command, Finding, SideLine};
pub use read_back::ReadBack;
pub use reading::lines_of;
pub use writing::text_of;

#[cfg(test)]
mod tests;
