//! The frames of what a space sends.

use net_engine::{Frame, WireFault};
use net_message::Message;

/// The frame that says a message. A fault for one that no frame says, such as one with an array of more than 8,000
/// elements; a space sends none.
pub fn frame_of(message: Message) -> Result<Frame, WireFault> {
    match message {
        Message::Hello {
            version,
            space,
            digest,
        } => Frame::hello(version, space, digest),
        Message::Call {
            number,
            object,
            method,
            fuel,
            arguments,
        } => Frame::call(number, object, method, fuel, arguments),
        Message::Returned {
            number,
            fuel,
            value,
        } => Frame::returned(number, fuel, value),
        Message::Threw { number, class } => Ok(Frame::threw(number, class)),
        Message::Spent { number } => Ok(Frame::spent(number)),
        Message::Ack { number } => Ok(Frame::ack(number)),
        Message::Dirty {
            sequence,
            period,
            objects,
        } => Frame::dirty(sequence, period, objects),
        Message::Lease { sequence, period } => Ok(Frame::lease(sequence, period)),
        Message::Clean {
            sequence,
            strong,
            objects,
        } => Frame::clean(sequence, strong, objects),
        Message::Cleaned { sequence } => Ok(Frame::cleaned(sequence)),
        Message::Lookup { number, name } => Frame::lookup(number, name),
    }
}
