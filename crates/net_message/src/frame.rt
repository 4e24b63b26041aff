//! A frame: a message whose fields are in their ranges.

ghost use Rattle.std.specs.Prelude.{◌≡◌, length};
ghost use Rattle.net_message.specs.Wire.{body, IsInRange};

use crate::fault::WireFault;
use crate::length::body_len;
use crate::message::{Digest, Message};
use crate::ranges::{are_arguments, are_objects, is_name, is_result, is_space, is_version};
use space_ids::{ClassId, ObjId, Row, Uuid, Value};
use std::marker::Model;

/// A frame of the protocol between spaces: a message each of whose fields is in its range. A
/// contract sees it as the message. Its body may still be too long for the wire (`body_len`).
#[derive(Drop)]
pub struct Frame {
    message: Message,
}

impl Model for Frame {
    ghost use Rattle.net_message.specs.declared.message.Message.{Message};
    ghost use Rattle.net_message.specs.Wire.{IsInRange};

    ghost Value = { Message };

    ghost view = { λ frame. frame.message };

    ghost invariant = { λ frame. IsInRange frame.message };
}

impl Frame {
    ghost use Rattle.net_message.specs.Frame.{MakesFrame};
    ghost use Rattle.net_message.specs.declared.message.Message.TheVariants.{Hello, Call, Returned, Threw, Spent, Ack, Dirty, Lease, Clean, Cleaned, Lookup};

    /// Returns the frame that says a message. The caller owes that its fields are in their ranges,
    /// as they are after reading. The constructors of the kinds test them.
    pub fn new(message: Message) -> Frame
        requires { IsInRange message }
        ensures { result ≡ message }
    {
        Frame { message }
    }

    /// Returns the Hello that says who speaks: the protocol's version, the space and its classes'
    /// digest. Fault 72 for a version other than 1 and 2.
    #[tactic(auto, unfolding(crate::specs::Wire::IsInRange))]
    pub fn hello(version: u8, space: Uuid, digest: Digest) -> Result<Frame, WireFault>
        ensures { MakesFrame (Hello version space digest) result }
    {
        if !is_version(version) || !is_space(&space) {
            return Err(WireFault::Body);
        }
        let message = Message::Hello {
            version,
            space,
            digest,
        };
        Ok(Frame { message })
    }

    /// Returns a Call. Fault 72 for more than 255 values, or an array of more than 8,000 ints.
    #[tactic(auto, unfolding(crate::specs::Wire::IsInRange))]
    pub fn call(
        number: u64,
        object: ObjId,
        method: u32,
        fuel: u64,
        arguments: Row<Value>,
    ) -> Result<Frame, WireFault>
        ensures { MakesFrame (Call number object method fuel arguments) result }
    {
        if !are_arguments(arguments.as_slice()) {
            return Err(WireFault::Body);
        }
        let message = Message::Call {
            number,
            object,
            method,
            fuel,
            arguments,
        };
        Ok(Frame { message })
    }

    /// Returns a Returned, the result of a call. Fault 72 for an array of more than 8,000 ints.
    #[tactic(auto, unfolding(crate::specs::Wire::IsInRange))]
    pub fn returned(number: u64, fuel: u64, value: Option<Value>) -> Result<Frame, WireFault>
        ensures { MakesFrame (Returned number fuel value) result }
    {
        if !is_result(&value) {
            return Err(WireFault::Body);
        }
        let message = Message::Returned {
            number,
            fuel,
            value,
        };
        Ok(Frame { message })
    }

    /// Returns a Threw: the call threw an object of this class.
    #[tactic(auto, unfolding(crate::specs::Wire::IsInRange))]
    pub fn threw(number: u64, class: ClassId) -> Frame
        ensures { result ≡ Threw number class }
    {
        let _class = class.0;
        Frame {
            message: Message::Threw { number, class },
        }
    }

    /// Returns a Spent: the call ran out of fuel.
    #[tactic(auto, unfolding(crate::specs::Wire::IsInRange))]
    pub fn spent(number: u64) -> Frame
        ensures { result ≡ Spent number }
    {
        Frame {
            message: Message::Spent { number },
        }
    }

    /// Returns an Ack: the result has arrived.
    #[tactic(auto, unfolding(crate::specs::Wire::IsInRange))]
    pub fn ack(number: u64) -> Frame
        ensures { result ≡ Ack number }
    {
        Frame {
            message: Message::Ack { number },
        }
    }

    /// Returns a Dirty, with its period in milliseconds. Fault 72 for no object or more than 4,096.
    #[tactic(auto, unfolding(crate::specs::Wire::IsInRange))]
    pub fn dirty(sequence: u64, period: u64, objects: Row<ObjId>) -> Result<Frame, WireFault>
        ensures { MakesFrame (Dirty sequence period objects) result }
    {
        if !are_objects(objects.as_slice()) {
            return Err(WireFault::Body);
        }
        let message = Message::Dirty {
            sequence,
            period,
            objects,
        };
        Ok(Frame { message })
    }

    /// Returns a Lease: the granted period, in milliseconds.
    #[tactic(auto, unfolding(crate::specs::Wire::IsInRange))]
    pub fn lease(sequence: u64, period: u64) -> Frame
        ensures { result ≡ Lease sequence period }
    {
        Frame {
            message: Message::Lease { sequence, period },
        }
    }

    /// Returns a Clean. Fault 72 for no object or more than 4,096.
    #[tactic(auto, unfolding(crate::specs::Wire::IsInRange))]
    pub fn clean(sequence: u64, strong: bool, objects: Row<ObjId>) -> Result<Frame, WireFault>
        ensures { MakesFrame (Clean sequence strong objects) result }
    {
        if !are_objects(objects.as_slice()) {
            return Err(WireFault::Body);
        }
        let message = Message::Clean {
            sequence,
            strong,
            objects,
        };
        Ok(Frame { message })
    }

    /// Returns a Cleaned: the clean call was taken.
    #[tactic(auto, unfolding(crate::specs::Wire::IsInRange))]
    pub fn cleaned(sequence: u64) -> Frame
        ensures { result ≡ Cleaned sequence }
    {
        Frame {
            message: Message::Cleaned { sequence },
        }
    }

    /// Returns a Lookup of a name. Fault 72 for a name that is empty, of more than 255 bytes, or
    /// not of ASCII letters, digits, `_` and `.` alone.
    #[tactic(auto, unfolding(crate::specs::Wire::IsInRange))]
    pub fn lookup(number: u64, name: Row<u8>) -> Result<Frame, WireFault>
        ensures { MakesFrame (Lookup number name) result }
    {
        if !is_name(name.as_slice()) {
            return Err(WireFault::Body);
        }
        let message = Message::Lookup { number, name };
        Ok(Frame { message })
    }

    /// Returns how many bytes the frame's body has. At most 65,536 go over the wire.
    pub fn body_len(&self) -> usize
        ensures { result ≡ length (body self.now) }
    {
        body_len(&self.message)
    }

    /// Returns what the frame says.
    pub fn message(&self) -> &Message
        ensures says { result.now ≡ self.now }
        ensures in_range { IsInRange self.now }
    {
        &self.message
    }

    /// Returns what the frame says, and gives up the frame.
    pub fn into_message(self) -> Message
        ensures says { result ≡ self }
        ensures in_range { IsInRange self }
    {
        self.message
    }
}
