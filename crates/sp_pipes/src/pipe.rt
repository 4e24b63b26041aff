//! One connection.

ghost use Rattle.std.specs.Prelude.{◌≡◌, [], OnOk, OnErr, option_copied};
ghost use Rattle.sp_rules.specs.Worlds.{begin_side, cut_end, ends as over, end_of as end_at, is_ended, is_live, is_unopened, lost, new_pipe, other, queue_up as queued, set_side, side as side_at, take_front as rest_of, End as Ends};
ghost use Rattle.sp_pipes.specs.Connections.{end_of, first_of, pipe_of, side_of};

use net_message::Message;
use std::alloc::{AllocError, Global};
use std::collections::VecDeque;

/// The two ends of a connection.
#[derive(Clone, Copy, PartialEq, Eq)]
pub enum End {
    /// At the space that dialled.
    Dialler,
    /// At the space that was dialled.
    Accepter,
}

// How far an end of a connection is.
#[derive(Clone, Copy, PartialEq, Eq)]
pub(crate) enum Phase {
    Unopened,
    Live,
    Over,
}

// One end of a connection: its space, and the frames that come towards it.
#[derive(Drop)]
pub(crate) struct Side {
    pub(crate) space: usize,
    pub(crate) phase: Phase,
    pub(crate) queue: VecDeque<Message>,
}

// A connection: its two ends.
#[derive(Drop)]
pub(crate) struct Pipe {
    pub(crate) dialler: Side,
    pub(crate) accepter: Side,
}

impl Side {
    fn new(alloc: Global, space: usize, phase: Phase) -> Side
        ensures space { result.space ≡ space }
        ensures phase { result.phase ≡ phase }
        ensures queue { result.queue.items ≡ [] }
    {
        Side {
            space,
            phase,
            queue: VecDeque::new(alloc),
        }
    }

    // A frame comes after the others.
    fn queue_up(&mut self, message: Message) -> Result<(), AllocError>
        ensures queued { OnOk result (side_of self.new ≡ queued message (side_of self.old)) }
        ensures same { OnErr result (side_of self.new ≡ side_of self.old) }
    {
        self.queue.push_back(message)?;
        Ok(())
    }

    // It gets no further event.
    fn end(&mut self)
        ensures { side_of self.new ≡ over (side_of self.old) }
    {
        self.phase = Phase::Over;
    }

    // It may get events.
    fn begin(&mut self)
        ensures { side_of self.new ≡ begin_side (side_of self.old) }
    {
        self.phase = Phase::Live;
    }

    // The first frame goes.
    fn take_front(&mut self)
        ensures { side_of self.new ≡ rest_of (side_of self.old) }
    {
        let _ = self.queue.pop_front();
    }

    // The last frames go.
    fn cut_end(&mut self, frames: u64)
        ensures { side_of self.new ≡ cut_end frames (side_of self.old) }
    {
        let kept = self.queue.len().saturating_sub(frames as usize);
        self.queue.truncate(kept);
    }

    // The first frame.
    fn front(&self) -> Option<&Message>
        ensures { option_copied result ≡ first_of self.now.queue.items }
    {
        self.queue.front()
    }
}

impl Pipe {
    // A connection that one space dialled, and the other has not accepted.
    pub(crate) fn new(alloc: Global, dialler: usize, accepter: usize) -> Pipe
        ensures { pipe_of result ≡ new_pipe dialler accepter }
    {
        Pipe {
            dialler: Side::new(alloc, dialler, Phase::Live),
            accepter: Side::new(alloc, accepter, Phase::Unopened),
        }
    }

    // One of its ends.
    fn side(&self, end: End) -> &Side
        ensures { side_of result.now ≡ side_at (end_of end) (pipe_of self.now) }
    {
        match end {
            End::Dialler => &self.dialler,
            End::Accepter => &self.accepter,
        }
    }

    // The space at an end.
    pub(crate) fn space(&self, end: End) -> usize
        ensures { result ≡ (side_at (end_of end) (pipe_of self.now)).space }
    {
        self.side(end).space
    }

    // Whether an end gets events.
    pub(crate) fn is_live(&self, end: End) -> bool
        ensures { result ≡ is_live (side_at (end_of end) (pipe_of self.now)).phase }
    {
        match self.side(end).phase {
            Phase::Live => true,
            Phase::Unopened => false,
            Phase::Over => false,
        }
    }

    // Whether an end has ended.
    pub(crate) fn is_over(&self, end: End) -> bool
        ensures { result ≡ is_ended (side_at (end_of end) (pipe_of self.now)).phase }
    {
        match self.side(end).phase {
            Phase::Over => true,
            Phase::Unopened => false,
            Phase::Live => false,
        }
    }

    // Whether it waits to be accepted.
    pub(crate) fn is_unopened(&self) -> bool
        ensures { result ≡ is_unopened (pipe_of self.now).accepter.phase }
    {
        match self.accepter.phase {
            Phase::Unopened => true,
            Phase::Live => false,
            Phase::Over => false,
        }
    }

    // The first frame towards an end.
    pub(crate) fn front(&self, to: End) -> Option<&Message>
        ensures { option_copied result ≡ first_of (side_at (end_of to) (pipe_of self.now)).queue }
    {
        self.side(to).front()
    }

    // How many of the last frames that an end wrote are lost: at most those that were not delivered.
    pub(crate) fn lost(&self, end: End, unsent: u64) -> u64
        ensures { result ≡ lost unsent (end_of end) (pipe_of self.now) }
    {
        unsent.min(self.side(end.other()).queue.len() as u64)
    }

    // At which end of it a space stands.
    pub(crate) fn end_at(&self, space: usize) -> End
        ensures { end_of result ≡ end_at space (pipe_of self.now) }
    {
        if self.dialler.space == space {
            End::Dialler
        } else {
            End::Accepter
        }
    }

    pub(crate) fn queue_up(&mut self, to: End, message: Message) -> Result<(), AllocError>
        ensures queued { OnOk result (pipe_of self.new ≡ set_side (queued message) (end_of to) (pipe_of self.old)) }
        ensures same { OnErr result (pipe_of self.new ≡ pipe_of self.old) }
    {
        match to {
            End::Dialler => self.dialler.queue_up(message),
            End::Accepter => self.accepter.queue_up(message),
        }
    }

    pub(crate) fn end(&mut self, end: End)
        ensures { pipe_of self.new ≡ set_side over (end_of end) (pipe_of self.old) }
    {
        match end {
            End::Dialler => self.dialler.end(),
            End::Accepter => self.accepter.end(),
        }
    }

    pub(crate) fn begin(&mut self)
        ensures { pipe_of self.new ≡ set_side begin_side Ends.Accepter (pipe_of self.old) }
    {
        self.accepter.begin();
    }

    pub(crate) fn take_front(&mut self, to: End)
        ensures { pipe_of self.new ≡ set_side rest_of (end_of to) (pipe_of self.old) }
    {
        match to {
            End::Dialler => self.dialler.take_front(),
            End::Accepter => self.accepter.take_front(),
        }
    }

    pub(crate) fn cut_end(&mut self, to: End, frames: u64)
        ensures { pipe_of self.new ≡ set_side (cut_end frames) (end_of to) (pipe_of self.old) }
    {
        match to {
            End::Dialler => self.dialler.cut_end(frames),
            End::Accepter => self.accepter.cut_end(frames),
        }
    }
}

impl End {
    /// The other end.
    pub fn other(self) -> End
        ensures { end_of result ≡ other (end_of self) }
    {
        match self {
            End::Dialler => End::Accepter,
            End::Accepter => End::Dialler,
        }
    }
}
