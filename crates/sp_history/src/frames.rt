//! Frames that wait for a connection.

ghost use Rattle.std.specs.Prelude.{◌≡◌, map};
ghost use Rattle.sp_history.specs.Entries.{outputs_in_all};
ghost use Rattle.sp_history.specs.Frames.{frames_on, is_frame_on, unsent_with};
ghost use Rattle.sp_outputs.specs.Notes.{output_of};

use sp_outputs::Output;

// Whether an output is a frame for the connection.
fn is_frame_on(conn: u64, output: &Output) -> bool
    ensures { result ≡ is_frame_on conn (output_of output.now) }
{
    match output {
        Output::Send {
            conn: other,
            message: _,
        } => *other == conn,
        _ => false,
    }
}

// How many outputs are frames for the connection.
fn frames_in(conn: u64, outputs: &[Output]) -> u64
    ensures { result ≡ frames_on conn (map output_of outputs.now) }
{
    let mut frames = 0;
    for output in outputs {
        if is_frame_on(conn, output) {
            frames += 1;
        }
    }
    frames
}

// How many frames for the connection were not sent, with those in batches that wait.
pub(crate) fn unsent_with(conn: u64, unsent: u64, batches: &[Vec<Output>]) -> u64
    ensures { result ≡ unsent_with unsent (frames_on conn (outputs_in_all batches.now)) }
{
    let mut frames = unsent;
    for batch in batches {
        frames = frames.saturating_add(frames_in(conn, batch.as_slice()));
    }
    frames
}
