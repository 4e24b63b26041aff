//! What holds workers back.

/// What may hold workers back, so that a test chooses a schedule.
pub trait Gate {
    /// Whether a worker may run a slice of a task. It is asked without a lock, `turn` rising from 0, until it
    /// says so.
    fn before_slice(&self, task: u64, turn: u64) -> bool;

    /// A root has ended.
    fn after_end(&self, task: u64);
}

/// A gate that holds nobody back.
#[derive(Clone, Copy, Drop)]
pub struct OpenGate;

impl Gate for OpenGate {
    fn before_slice(&self, _task: u64, _turn: u64) -> bool {
        true
    }

    fn after_end(&self, _task: u64) {}
}
