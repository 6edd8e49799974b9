//! The reply to what a line requests.

ghost use Rattle.p2p_directory.specs.Received.{wire_of};
ghost use Rattle.lines.specs.Requests.{CanServe};
ghost use Rattle.play.specs.Answers.{IsAnswered};

use crate::session::Session;
use bytes::Bytes;
use lines::{Hex, Line, Request, Value};
use p2p_directory::node::NetworkReply;
use p2p_discovery::codec::{CodecError, PublicKey, TestKey};
use std::alloc::{AllocError, Global};
use std::fmt;

/// The reply to a line.
#[derive(Drop)]
pub enum Answer<C: PublicKey> {
    /// A new node was made.
    Ready,
    /// The reply to a command.
    Reply(NetworkReply<C>),
    /// A value that was read.
    Value(Value<C>),
    /// The bytes of a value.
    Bytes(Bytes),
    /// Why bytes are not decoded, or a value is not encoded.
    Refused(CodecError),
    /// The allocation for a new node failed.
    OutOfMemory,
}

impl fmt::Display for Answer<TestKey> {
    fn fmt<W: fmt::Write>(&self, f: &mut fmt::Formatter<W>) -> fmt::Result {
        match self {
            Answer::Ready => f.write_str("ready"),
            Answer::Reply(reply) => write!(f, "{}", Line(reply)),
            Answer::Value(value) => write!(f, "{value}"),
            Answer::Bytes(bytes) => write!(f, "{}", Hex(bytes.as_slice())),
            Answer::Refused(fault) => write!(f, "{fault:?}"),
            Answer::OutOfMemory => f.write_str("OutOfMemory"),
        }
    }
}

/// Answers a request of a line that is played: makes a node, or passes a command to the nodes that
/// it names. Anything else leaves the session as it was.
///
/// # Conditions
///
/// Those of [`Session::put`].
pub fn serve<C: PublicKey>(
    alloc: Global,
    session: &mut Session<C>,
    request: Request<C>,
) -> Answer<C>
    requires { CanServe request }
    ensures { IsAnswered C.cmp (wire_of C.verifies C.FixedBytes C.Signature.FixedBytes)
        request result session.old session.new }
{
    match request {
        Request::Node(name, setup) => match session.put(alloc, name.as_str(), setup) {
            Ok(()) => Answer::Ready,
            Err(AllocError) => Answer::OutOfMemory,
        },
        Request::Command(command) => Answer::Reply(session.serve(command)),
        Request::Decode(kind, bytes) => value_or_fault(Value::decode(alloc, kind, bytes)),
        Request::Recode(kind, bytes) => match Value::<C>::decode(alloc, kind, bytes) {
            Ok(value) => bytes_or_fault(value.encode(alloc)),
            Err(fault) => Answer::Refused(fault),
        },
        Request::Encode(value) => bytes_or_fault(value.encode(alloc)),
    }
}

fn value_or_fault<C: PublicKey>(value: Result<Value<C>, CodecError>) -> Answer<C> {
    match value {
        Ok(value) => Answer::Value(value),
        Err(fault) => Answer::Refused(fault),
    }
}

fn bytes_or_fault<C: PublicKey>(bytes: Result<Bytes, CodecError>) -> Answer<C> {
    match bytes {
        Ok(bytes) => Answer::Bytes(bytes),
        Err(fault) => Answer::Refused(fault),
    }
}
