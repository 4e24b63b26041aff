//! How methods end, as it is told to users.

use cf_reader::Text;
use space_ids::Value;

/// How a method ended.
#[derive(Debug, Drop)]
pub enum RunOutcome {
    /// It returned: a value, or nothing from a method of the type void.
    Returned(Option<Value>),
    /// It threw an object of the class of this name.
    Threw(Text),
    /// The fuel was used up, and an instruction came next.
    Spent,
}
