//! The bounds of a frame in the row of words, and the state of its method.

/// A frame: its method and the next instruction, and its part of the row of words.
#[derive(Clone, Copy)]
pub struct Link {
    /// The number of the method.
    pub method: u32,
    /// The index of the instruction that comes next.
    pub index: usize,
    /// The index of the first word of its local variables.
    pub bottom: usize,
    /// The index after them, at which its operands begin.
    pub base: usize,
    /// How far its operands may reach.
    pub limit: usize,
}
