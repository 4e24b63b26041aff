//! What comes from a source, event by event.

ghost use Rattle.std.specs.Prelude.{◌≡◌, ℕ, ◌++◌, true, List, [], IfOk, OnErr, option_to_list};
ghost use Rattle.sp_inflow.specs.declared.arrivals.Arrival.{Arrival as Told};
ghost use Rattle.sp_inflow.specs.Arriving.{arrival_of, is_end};
ghost use Rattle.sp_inflow.specs.Telling.{AreTold, HasCause, ends_with};

use dev_io::Source;
use net_engine::{Inbound, Inflow};
use net_message::Message;
use std::alloc::{AllocError, Global};
use std::marker::Model;

/// What comes next from a connection, an event of its space.
#[derive(Drop)]
pub enum Arrival {
    /// A frame that says this.
    Received(Message),
    /// The peer has closed the connection, within a frame or not.
    Closed,
    /// A read has failed.
    ReadFailed,
    /// The bytes are no frames from here on.
    Bad,
}

/// Tells the frames that come from a source, one after the other, and then its end, once.
///
/// A contract names the bytes of the stream and all that was told of them.
#[derive(Drop)]
pub struct Arrivals<S: Source> {
    inbound: Inbound<S>,
    ended: bool,
}

impl<S: Source> Model for Arrivals<S> {
    ghost use Rattle.sp_inflow.specs.Telling.{Incoming};

    ghost Value = { Incoming S };

    ghost view = { λ arrivals. record { receiver = arrivals.inbound; ended = arrivals.ended } };
}

impl Arrival {
    // What comes next, as a space is told it.
    fn of(inflow: Inflow) -> Arrival
        ensures { result ≡ arrival_of inflow }
    {
        match inflow {
            Inflow::Frame(frame) => Arrival::Received(frame.into_message()),
            Inflow::Closed { inside: _ } => Arrival::Closed,
            Inflow::ReadFailed => Arrival::ReadFailed,
            Inflow::Bad(_) => Arrival::Bad,
        }
    }

    // Whether nothing comes after it.
    fn is_end(&self) -> bool
        ensures { result ≡ is_end self.now }
    {
        match self {
            Arrival::Received(_) => false,
            Arrival::Closed | Arrival::ReadFailed | Arrival::Bad => true,
        }
    }
}

impl<S: Source + Drop> Arrivals<S> {
    /// Nothing has come. It reserves the room for a frame of any kind; if it is out of memory, the source
    /// is dropped.
    pub fn new(alloc: Global, source: S) -> Result<Arrivals<S>, AllocError>
        ensures { IfOk result (λ arrivals. (bytes : List ℕ) → S.remaining source ≡ Some bytes → AreTold S.remaining bytes [] arrivals) }
    {
        let inbound = Inbound::new(alloc, source)?;
        Ok(Arrivals {
            inbound,
            ended: false,
        })
    }
}

impl<S: Source> Arrivals<S> {
    /// What comes next, or nothing after the end. `ReadFailed` comes only if the source has failed. If
    /// memory runs out, no byte that was read is lost: the next call goes on from there.
    pub fn next(&mut self) -> Result<Option<Arrival>, AllocError>
        ensures told { IfOk result (λ next. (bytes : List ℕ) (told : List Told) → AreTold S.remaining bytes told self.old → AreTold S.remaining bytes (told ++ option_to_list next) self.new) }
        ensures memory { OnErr result ((bytes : List ℕ) (told : List Told) → AreTold S.remaining bytes told self.old → AreTold S.remaining bytes told self.new) }
        ensures ended { self.old.ended ≡ true → result ≡ Ok None }
        ensures end { IfOk result (λ next. self.new.ended ≡ ends_with next) }
        ensures failed { IfOk result (λ next. HasCause S.has_failed next self.new.receiver.source) }
        ensures unended { OnErr result (self.new.ended ≡ self.old.ended) }
    {
        if self.ended {
            return Ok(None);
        }
        let inflow = self.inbound.next()?;
        let arrival = Arrival::of(inflow);
        self.ended = arrival.is_end();
        Ok(Some(arrival))
    }
}
