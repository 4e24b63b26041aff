//! SpaceCounts of what happened in a space.

use crate::{KINDS, SentKind};

/// What a space did: the events that came to it, the instructions that its tasks made, the objects that it withdrew and those that
/// stand at the end, and the frames that it sent.
#[derive(Drop)]
pub struct SpaceCounts {
    pub events: u64,
    pub instructions: u64,
    pub withdrawn: u64,
    pub standing: u64,
    frames: [u64; 11],
}

impl SpaceCounts {
    /// Nothing.
    pub fn new() -> SpaceCounts {
        SpaceCounts {
            events: 0,
            instructions: 0,
            withdrawn: 0,
            standing: 0,
            frames: [0; 11],
        }
    }

    /// How many frames of a kind the space sent.
    pub fn frames(&self, kind: SentKind) -> u64 {
        match self.frames.get(kind as usize) {
            Some(count) => *count,
            None => 0,
        }
    }

    /// How many frames it sent.
    pub fn all_frames(&self) -> u64 {
        let mut all: u64 = 0;
        for kind in KINDS {
            all = all.saturating_add(self.frames(kind));
        }
        all
    }

    /// How many objects it made: each of them stands, or was withdrawn.
    pub fn made(&self) -> u64 {
        self.standing.saturating_add(self.withdrawn)
    }

    /// The space sent a frame.
    pub fn send(&mut self, kind: SentKind) {
        if let Some(count) = self.frames.get_mut(kind as usize) {
            *count = count.saturating_add(1);
        }
    }
}
