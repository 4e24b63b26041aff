//! What happened as a script was played, in its order, and counts of it: what drawings and statistics are made of.
#![tactic(auto)]

pub use counts::SpaceCounts;
pub use frame::{KINDS, SentFrame, SentKind};
pub use happening::{Happening, LinkEnd};
pub use record::ScriptRecord;

mod counts;
mod frame;
mod happening;
mod record;
