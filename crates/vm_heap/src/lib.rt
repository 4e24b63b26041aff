//! Words, rows of words, the heap of a task, the references that it comes by, and the values that cross between tasks and spaces
//! (ints, int arrays by copy and remote references).
#![tactic(auto)]

pub use heap::{Heap, WordKind};
pub use references::References;
pub use space_ids::{ClassId, ForeignId, ObjId, Ref, Row, Uuid, Value};
pub use word::{Pointer, Word};
pub use words::Words;

mod heap;
pub mod laws;
mod references;
mod word;
mod words;
