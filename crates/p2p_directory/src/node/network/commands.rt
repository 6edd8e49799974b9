//! Commands to several nodes, and their replies.

use crate::node::exchanged::Exchanged;
use crate::node::received::Received;
use crate::run::{Command, Reply};
use bytes::Bytes;
use p2p_discovery::codec::PublicKey;
use std::fmt;
use std::time::Duration;

/// A command to one of several nodes, which are counted from 0, or to two of them.
#[derive(Drop)]
pub enum NetworkCommand<C: PublicKey> {
    /// The node serves the command as [`run`](crate::run::run) does.
    Call(usize, Command<C>),
    /// [`Node::ask`](crate::node::Node::ask) of the node, for the set at this position.
    Ask(usize, usize),
    /// [`Node::receive`](crate::node::Node::receive) by the node, of this frame at this time.
    Frame(usize, Bytes, Duration),
    /// [`exchange`](crate::node::exchange) of the asker with the replier.
    Exchange {
        /// The node that asks.
        asker: usize,
        /// The node that replies.
        replier: usize,
        /// The position of the asker's set.
        place: usize,
        /// The asker's present time, as a duration since the epoch.
        asker_now: Duration,
        /// The replier's present time, as a duration since the epoch.
        replier_now: Duration,
    },
}

/// The reply to a [`NetworkCommand`].
#[derive(Drop)]
pub enum NetworkReply<C: PublicKey> {
    /// The reply to a command.
    Call(Reply<C>),
    /// The frame that was asked for, if there is a set at the position.
    Ask(Option<Bytes>),
    /// The result of a frame.
    Frame(Received<C>),
    /// The result of an exchange.
    Exchange(Exchanged<C>),
    /// The allocation for the frame of an `Ask` failed. Nothing has changed.
    OutOfMemory,
    /// There is no such node, or a node was to exchange with itself. Nothing has changed.
    NoNode,
}

impl<C: PublicKey> fmt::Debug for NetworkReply<C> {
    /// Writes the reply to a network's command, by the name of the variant alone.
    fn fmt<W: fmt::Write>(&self, f: &mut fmt::Formatter<W>) -> fmt::Result {
        f.write_str(match self {
            NetworkReply::Call(_) => "Call",
            NetworkReply::Ask(_) => "Ask",
            NetworkReply::Frame(_) => "Frame",
            NetworkReply::Exchange(_) => "Exchange",
            NetworkReply::OutOfMemory => "OutOfMemory",
            NetworkReply::NoNode => "NoNode",
        })
    }
}
