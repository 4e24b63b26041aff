//! The spaces at the ends of pipes, and which of their devices fails.

use test_rows::RowFault;

/// One of the two spaces.
#[derive(Clone, Copy, PartialEq, Eq)]
pub enum Side {
    /// It has the object.
    A,
    /// It calls the object.
    B,
}

impl Side {
    /// Returns the space that a word names.
    pub fn of(word: &str) -> Result<Side, RowFault> {
        match word {
            "A" => Ok(Side::A),
            "B" => Ok(Side::B),
            _ => Err(RowFault::Bad),
        }
    }
}

/// What a device does.
#[derive(Clone, Copy, PartialEq, Eq)]
pub enum Way {
    Reads,
    Writes,
}

/// How the devices of a play give and take bytes: at most `step` a call, which is not 0.
#[derive(Clone, Copy)]
pub struct Devices {
    pub step: usize,
    pub failing: Option<Failing>,
}

/// The device that fails: that of a space on the first connection, at this call.
#[derive(Clone, Copy)]
pub struct Failing {
    pub side: Side,
    pub way: Way,
    pub call: u64,
}

impl Devices {
    /// Returns the call at which the device of a space on the first connection fails, 0 for none.
    pub fn call(&self, side: Side, way: Way) -> u64 {
        match self.failing {
            Some(failing) if failing.side == side && failing.way == way => failing.call,
            _ => 0,
        }
    }

    /// The same devices, of which none fails.
    pub fn whole(&self) -> Devices {
        Devices {
            step: self.step,
            failing: None,
        }
    }
}
