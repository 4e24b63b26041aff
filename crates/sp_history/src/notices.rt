//! Notices that tasks may go on, and the outputs without them.

ghost use Rattle.std.specs.Prelude.{◌≡◌, map};
ghost use Rattle.sp_history.specs.Books.{is_ready, told};
ghost use Rattle.sp_outputs.specs.Notes.{output_of};

use sp_outputs::Output;
use std::collections::VecDeque;

// How many notices may wait: one for each task that may live, and as many again.
pub(crate) const MOST: usize = 8192;

// Whether an output says that a task may go on.
fn is_ready(output: &Output) -> bool
    ensures { result ≡ is_ready (output_of output.now) }
{
    matches!(output, Output::Ready(_))
}

// The outputs without those that say that a task may go on.
pub(crate) fn without_ready(outputs: Vec<Output>) -> Vec<Output>
    ensures { map output_of result.items ≡ told (map output_of outputs.items) }
{
    let mut outputs = outputs;
    outputs.retain(|output| !is_ready(output));
    outputs
}

// A notice waits behind the others, if there is room.
pub(crate) fn announce(notices: &mut VecDeque<u64>, task: u64) {
    if notices.len() < notices.capacity() {
        notices.push_back_reserved(task);
    }
}

// A notice waits for each task that may go on.
pub(crate) fn announce_all(notices: &mut VecDeque<u64>, outputs: &[Output]) {
    for output in outputs {
        if let Output::Ready(task) = output {
            announce(notices, *task);
        }
    }
}
