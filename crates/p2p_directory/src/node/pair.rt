//! Two nodes that serve commands, are asked, receive frames and exchange infos.

ghost use Rattle.std.specs.Prelude.{◌≡◌, ◌<◌, ◌≤◌, ◌-◌, ◌^◌, [], ◌∷◌, true, IfOk, length};
ghost use Rattle.std.specs.Int.NonZero.{non_zero_usize_get};
ghost use Rattle.std.specs.List.{AllPass};
ghost use Rattle.std.specs.Vec.{vec_capacity};
ghost use Rattle.p2p_directory.specs.declared.node.pair.Side.TheVariants as side;
ghost use Rattle.p2p_directory.specs.Nodes.{NodeStandsAt, made_of};
ghost use Rattle.p2p_directory.specs.Pairs.{ArePairAnswers, calls_left, commands_in, command_in};
ghost use Rattle.p2p_directory.specs.Pairs.{replies_in, reply_in};
ghost use Rattle.p2p_directory.specs.Pairs as pairs;
ghost use Rattle.p2p_directory.specs.Laws.TwoNodes.{LawsOfPair};
ghost use Rattle.p2p_directory.specs.Private.Networks.{is_of_node};

use crate::node::Node;
use crate::node::exchanged::Exchanged;
use crate::node::network::{NetworkCommand, NetworkReply, NetworkRun, run_network};
use crate::node::received::Received;
use crate::node::setup::Setup;
use crate::node::wire::Frames;
use crate::run::{Command, Reply};
use bytes::Bytes;
use p2p_discovery::codec::PublicKey;
use std::alloc::{AllocError, Global};
use std::fmt;
use std::time::Duration;

/// One of two nodes.
#[derive(Clone, Copy, Debug, Eq, PartialEq)]
pub enum Side {
    /// The first.
    Left,
    /// The second.
    Right,
}

/// A command to one of two nodes, or to both.
#[derive(Drop)]
pub enum PairCommand<C: PublicKey> {
    /// The node at this side serves the command as [`run`](crate::run::run) does: space for the
    /// reservation that a `Dial` or `Listen` may be granted is allocated before the first command.
    Call(Side, Command<C>),
    /// [`Node::ask`] of the node at this side, for the set at this position.
    Ask(Side, usize),
    /// [`Node::receive`] by the node at this side, of this frame at this time.
    Frame(Side, Bytes, Duration),
    /// [`exchange`](crate::node::exchange) of the asker with the other node.
    Exchange {
        /// The side of the node that asks.
        asker: Side,
        /// The position of the asker's set.
        place: usize,
        /// The asker's present time, as a duration since the epoch.
        asker_now: Duration,
        /// The replier's present time, as a duration since the epoch.
        replier_now: Duration,
    },
}

/// The reply to a [`PairCommand`].
#[derive(Drop)]
pub enum PairReply<C: PublicKey> {
    /// The reply to a command.
    Call(Reply<C>),
    /// The frame that was asked for, if there is a set at the position.
    Ask(Option<Bytes>),
    /// The result of a frame.
    Frame(Received<C>),
    /// The result of an exchange.
    Exchange(Exchanged<C>),
    /// The allocation for the frame of an `Ask` failed. Nothing has changed.
    OutOfMemory,
}

impl<C: PublicKey> fmt::Debug for PairReply<C> {
    /// Writes the reply of a pair, by the name of the variant alone.
    fn fmt<W: fmt::Write>(&self, f: &mut fmt::Formatter<W>) -> fmt::Result {
        f.write_str(match self {
            PairReply::Call(_) => "Call",
            PairReply::Ask(_) => "Ask",
            PairReply::Frame(_) => "Frame",
            PairReply::Exchange(_) => "Exchange",
            PairReply::OutOfMemory => "OutOfMemory",
        })
    }
}

/// What a run of two nodes leaves. Both must be consumed by [`Node::finish`] or [`Node::parts`].
pub struct PairRun<C: PublicKey> {
    /// The first node after the last command.
    pub left: Node<C>,
    /// The second node after the last command.
    pub right: Node<C>,
    /// One reply for each command, in their order.
    pub replies: Vec<PairReply<C>>,
}

/// Makes a pair of nodes and serves the commands in turn, as [`run_network`] of two. Each reply is
/// that of the call, by what was done before it. A command that runs out of memory, or whose reply
/// is `NotReserved` or `NotHeld`, has no effect.
///
/// Space for all replies and all reservations is allocated before the first command. So a `Call`
/// gets `OutOfMemory` only if [`run`](crate::run::run) may reply it, and an `Ask` only if there is
/// a set at the position. A `Frame` and an `Exchange` get `Memory` only if [`Node::receive`] and
/// [`exchange`](crate::node::exchange) may return it.
///
/// The replies keep the laws of exchanges, frames, infos, greetings and late frames, which
/// docs/PROOFS.md has, with their premises, below "Nodes and gossip".
///
/// Both resulting nodes must be consumed by [`Node::finish`] or [`Node::parts`].
///
/// # Conditions
///
/// Those of [`Node::new`], for both.
///
/// # Errors
///
/// `AllocError` if an allocation fails before the first command.
///
/// # Cost
///
/// That of the calls, and for each command a logarithm of the number of peers of all `Dial` and
/// `Listen` commands.
pub fn run_pair<C: PublicKey>(
    alloc: Global,
    left: Setup<C>,
    right: Setup<C>,
    commands: Vec<PairCommand<C>>,
) -> Result<PairRun<C>, AllocError>
    requires left_sets { non_zero_usize_get left.cfg.max_sets < 2 ^ 64 - 1 }
    requires left_bits { left.payload.max_bit_vec < 2 ^ 32 }
    requires right_sets { non_zero_usize_get right.cfg.max_sets < 2 ^ 64 - 1 }
    requires right_bits { right.payload.max_bit_vec < 2 ^ 32 }
    ensures answers { IfOk result (λ run. ArePairAnswers ⟦<C as Frames>⟧.wire (made_of C.cmp left)
        (made_of C.cmp right) [] commands.items run.replies.items) }
    ensures left { IfOk result (λ run. NodeStandsAt (made_of C.cmp left) (calls_left
        ⟦<C as Frames>⟧.wire (made_of C.cmp left) (made_of C.cmp right) commands.items
        run.replies.items side.Left) run.left) }
    ensures right { IfOk result (λ run. NodeStandsAt (made_of C.cmp right) (calls_left
        ⟦<C as Frames>⟧.wire (made_of C.cmp left) (made_of C.cmp right) commands.items
        run.replies.items side.Right) run.right) }
    ensures laws { IfOk result (λ run. LawsOfPair ⟦<C as Frames>⟧.wire C.IsValue C.Signature.IsValue
        (made_of C.cmp left) (made_of C.cmp right) commands.items run.replies.items) }
{
    let replies = Vec::with_capacity(alloc, commands.len())?;
    let setups = both(alloc, left, right)?;
    let commands = network_commands(alloc, commands)?;
    let NetworkRun {
        nodes,
        replies: told,
    } = run_network(alloc, setups, commands)?;
    let replies = pair_replies(told, replies);
    let (left, right) = nodes.into_both();
    Ok(PairRun {
        left,
        right,
        replies,
    })
}

// Both setups of a pair of nodes.
fn both<C: PublicKey>(
    alloc: Global,
    left: Setup<C>,
    right: Setup<C>,
) -> Result<Vec<Setup<C>>, AllocError>
    ensures { IfOk result (λ setups. setups.items ≡ left ∷ right ∷ []) }
{
    let mut setups = Vec::with_capacity(alloc, 2)?;
    setups.push_reserved(left);
    setups.push_reserved(right);
    Ok(setups)
}

// The commands to a pair of nodes, as those to a network.
fn network_commands<C: PublicKey>(
    alloc: Global,
    commands: Vec<PairCommand<C>>,
) -> Result<Vec<NetworkCommand<C>>, AllocError>
    ensures { IfOk result (λ given. given.items ≡ commands_in commands.items) }
{
    let mut given = Vec::with_capacity(alloc, commands.len())?;
    for command in commands {
        given.push_reserved(network_command(command));
    }
    Ok(given)
}

// The command to a pair of nodes, as one to a network.
fn network_command<C: PublicKey>(command: PairCommand<C>) -> NetworkCommand<C>
    ensures { result ≡ command_in command }
{
    match command {
        PairCommand::Call(side, command) => NetworkCommand::Call(index(side), command),
        PairCommand::Ask(side, place) => NetworkCommand::Ask(index(side), place),
        PairCommand::Frame(side, frame, now) => NetworkCommand::Frame(index(side), frame, now),
        PairCommand::Exchange {
            asker,
            place,
            asker_now,
            replier_now,
        } => NetworkCommand::Exchange {
            asker: index(asker),
            replier: index(other(asker)),
            place,
            asker_now,
            replier_now,
        },
    }
}

// The number of the node at a side of a pair of nodes.
fn index(side: Side) -> usize
    ensures { result ≡ pairs.index side }
{
    match side {
        Side::Left => 0,
        Side::Right => 1,
    }
}

// The other side of a pair of nodes.
fn other(side: Side) -> Side
    ensures { result ≡ pairs.other side }
{
    match side {
        Side::Left => Side::Right,
        Side::Right => Side::Left,
    }
}

// The replies of a network, as those of a pair: both nodes exist. It doesn't allocate.
fn pair_replies<C: PublicKey>(
    told: Vec<NetworkReply<C>>,
    replies: Vec<PairReply<C>>,
) -> Vec<PairReply<C>>
    requires nodes { AllPass is_of_node told.items }
    requires empty { replies.items ≡ [] }
    requires room { length told.items ≤ vec_capacity replies }
    ensures { replies_in result.items ≡ told.items }
{
    let mut replies = replies;
    for reply in told {
        replies.push_reserved(pair_reply(reply));
    }
    replies
}

// One reply of a network, as that of a pair of nodes.
fn pair_reply<C: PublicKey>(reply: NetworkReply<C>) -> PairReply<C>
    requires { is_of_node reply ≡ true }
    ensures { reply_in result ≡ reply }
{
    match reply {
        NetworkReply::Call(reply) => PairReply::Call(reply),
        NetworkReply::Ask(frame) => PairReply::Ask(frame),
        NetworkReply::Frame(answer) => PairReply::Frame(answer),
        NetworkReply::Exchange(exchanged) => PairReply::Exchange(exchanged),
        NetworkReply::OutOfMemory => PairReply::OutOfMemory,
        NetworkReply::NoNode => unreachable!(),
    }
}
