//! What the program says: texts of outcomes and refusals, each a report with the exit status that goes with it.
#![tactic(auto)]

pub use report::{Report, write_text};
pub use status::Status;
pub use texts::{
    accepted_report, bad_line_report, folder_report, outcome_report, played_report, refusal_report,
    text_report, unreadable_report,
};

mod line;
mod report;
mod status;
mod texts;
