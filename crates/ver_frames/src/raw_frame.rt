//! A frame as a StackMapTable spells it.

use super::chain::TypeChain;

// A frame as it is spelled: its offset, its local variables before they are filled with top, and its
// operands, the one on top last.
#[derive(Clone, Copy, Debug, PartialEq, Eq)]
pub(crate) struct RawFrame {
    pub(crate) offset: u16,
    pub(crate) locals: TypeChain,
    pub(crate) stack: TypeChain,
}
