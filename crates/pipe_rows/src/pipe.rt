//! A connection: the engines at its two ends, and the bytes between them.

use crate::calls;
use crate::device::{Devices, Side, Way};
use dev_io::MemSink;
use net_engine::Outbound;
use net_message::Message;
use sp_inflow::Arrival;
use std::alloc::Global;
use test_rows::RowFault;

// More bytes than go one way on a connection.
const ROOM: usize = 4_096;

/// An end of a connection: what it sent, how many frames it was told, at which of its reads its device fails, and
/// whether its space has it no more.
#[derive(Drop)]
pub struct End {
    out: Outbound<MemSink>,
    told: usize,
    fail: u64,
    is_over: bool,
}

/// A connection that B dialled.
#[derive(Drop)]
pub struct Pipe {
    a: End,
    b: End,
    step: usize,
}

impl End {
    fn new(alloc: Global, side: Side, devices: Devices) -> Result<End, RowFault> {
        let fail = devices.call(side, Way::Writes);
        Ok(End {
            out: calls::outbound(alloc, ROOM, devices.step, fail)?,
            told: 0,
            fail: devices.call(side, Way::Reads),
            is_over: false,
        })
    }

    // What comes next of the bytes that the other end sent, each frame once. A read that finds nothing waits, and is
    // made again later.
    fn next(&self, alloc: Global, step: usize, other: &End) -> Result<Option<Arrival>, RowFault> {
        let mut arrivals = calls::arrivals(alloc, calls::bytes(&other.out), step, self.fail)?;
        for _ in 0..self.told {
            drop(calls::next(&mut arrivals)?);
        }
        let arrival = calls::next(&mut arrivals)?;
        if !other.is_over && matches!(arrival, Some(Arrival::Closed)) {
            return Ok(None);
        }
        Ok(arrival)
    }

    // Takes what comes next, if anything does. An end that is over gets nothing.
    fn take(
        &mut self,
        alloc: Global,
        step: usize,
        other: &End,
    ) -> Result<Option<Arrival>, RowFault> {
        if self.is_over {
            return Ok(None);
        }
        let arrival = self.next(alloc, step, other)?;
        if let Some(arrival) = &arrival {
            self.note(arrival);
        }
        Ok(arrival)
    }

    // Whether its space has it no more after this.
    fn note(&mut self, arrival: &Arrival) {
        self.told = self.told.saturating_add(1);
        if !matches!(arrival, Arrival::Received(_)) {
            self.is_over = true;
        }
    }

    // Sends a frame, and returns whether it went out whole. If not, the end is over. An end that is over sends nothing.
    fn send(&mut self, message: Message) -> Result<bool, RowFault> {
        if self.is_over {
            return Ok(false);
        }
        let is_whole = calls::send(&mut self.out, message)?;
        self.is_over = !is_whole;
        Ok(is_whole)
    }
}

impl Pipe {
    pub fn new(alloc: Global, devices: Devices) -> Result<Pipe, RowFault> {
        Ok(Pipe {
            a: End::new(alloc, Side::A, devices)?,
            b: End::new(alloc, Side::B, devices)?,
            step: devices.step,
        })
    }

    /// Takes what comes next at the end of a space, if anything does. An end that is over gets nothing.
    pub fn take(&mut self, alloc: Global, side: Side) -> Result<Option<Arrival>, RowFault> {
        match side {
            Side::A => self.a.take(alloc, self.step, &self.b),
            Side::B => self.b.take(alloc, self.step, &self.a),
        }
    }

    /// Sends a frame from the end of a space, and returns whether it went out whole. If not, the end is over. An end
    /// that is over sends nothing.
    pub fn send(&mut self, side: Side, message: Message) -> Result<bool, RowFault> {
        match side {
            Side::A => self.a.send(message),
            Side::B => self.b.send(message),
        }
    }

    /// Ends the end of a space.
    pub fn close(&mut self, side: Side) {
        match side {
            Side::A => self.a.is_over = true,
            Side::B => self.b.is_over = true,
        }
    }

    /// Returns how many bytes a space sent.
    pub fn sent(&self, side: Side) -> usize {
        match side {
            Side::A => calls::bytes(&self.a.out).len(),
            Side::B => calls::bytes(&self.b.out).len(),
        }
    }
}
