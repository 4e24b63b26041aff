//! The ids by which spaces name their objects and classes to one another. The values that cross
//! between tasks and spaces: ints, int arrays by copy and remote references.
#![tactic(auto)]

pub use base_types::Row;
pub use ids::{ClassId, ForeignId, ObjId, Ref};
pub use references::is_among;
pub use uuid::Uuid;
pub use value::Value;

mod ids;
mod references;
mod value;
