//! The nodes of a network: one command among them.

ghost use Rattle.std.specs.Prelude.{◌≡◌, ◌<◌, false, ◌==◌, OnOk, length, slice_index_or, slice_set};
ghost use Rattle.std.specs.List.{All};
ghost use Rattle.std.specs.Duration.{as_nanos};
ghost use Rattle.p2p_directory.specs.Network.{IsNetworkServed, IsServedAmong, may_change};
ghost use Rattle.p2p_directory.specs.Network.{AreSame, KeepRoom};
ghost use Rattle.p2p_directory.specs.Private.Networks.{HasRoomFor, GrowSlots, KeepSlots};
ghost use Rattle.p2p_directory.specs.Private.Networks.{IsNetworkAnswered, IsNetworkWritten};
ghost use Rattle.p2p_directory.specs.Private.Networks.{IsNetworkCarried, ExchangesAmong};
ghost use Rattle.p2p_directory.specs.Private.Networks as networks;

use crate::node::Node;
use crate::node::exchanged::Exchanged;
use crate::node::network::commands::{NetworkCommand, NetworkReply};
use crate::node::wire::Frames;
use crate::run::Command;
use bytes::Bytes;
use p2p_discovery::codec::PublicKey;
use std::alloc::AllocError;
use std::mem::replace;
use std::time::Duration;

/// Makes slots at the network's nodes for the reservations that the commands may be granted.
pub fn make_room<C: PublicKey>(
    nodes: &mut [Node<C>],
    commands: &[NetworkCommand<C>],
) -> Result<(), AllocError>
    ensures same { AreSame nodes.old nodes.new }
    ensures room { OnOk result (All (HasRoomFor C.cmp nodes.new) commands.now) }
{
    for command in commands {
        make_one(nodes, command)?;
    }
    Ok(())
}

// Makes a slot at one of the network's nodes for the reservation that the command may be
// granted, if it may be.
fn make_one<C: PublicKey>(
    nodes: &mut [Node<C>],
    command: &NetworkCommand<C>,
) -> Result<(), AllocError>
    ensures same { AreSame nodes.old nodes.new }
    ensures slots { OnOk result (GrowSlots C.cmp nodes.old nodes.new) }
    ensures room { OnOk result (HasRoomFor C.cmp nodes.new command.now) }
{
    match command {
        NetworkCommand::Call(node, command) => room_at(nodes, *node, command),
        NetworkCommand::Ask(..) | NetworkCommand::Frame(..) | NetworkCommand::Exchange { .. } => Ok(
            (),
        ),
    }
}

// Makes a slot at the network's node of this number for the reservation that its command may be
// granted, if it may be.
fn room_at<C: PublicKey>(
    nodes: &mut [Node<C>],
    node: usize,
    command: &Command<C>,
) -> Result<(), AllocError>
    ensures same { AreSame nodes.old nodes.new }
    ensures slots { OnOk result (GrowSlots C.cmp nodes.old nodes.new) }
    ensures room { OnOk result
        (HasRoomFor C.cmp nodes.new (NetworkCommand.Call node command.now)) }
{
    if node >= nodes.len() {
        return Ok(());
    }
    nodes[node].make_room(command)
}

/// Replaces one of the network's nodes by another, and returns the old one.
pub fn swap_at<C: PublicKey>(nodes: &mut [Node<C>], node: usize, new: Node<C>) -> Node<C>
    requires { node < length nodes.old }
    ensures rest { nodes.new ≡ slice_set nodes.old node new }
    ensures old { result ≡ slice_index_or nodes.old node result }
{
    replace(&mut nodes[node], new)
}

/// Serves one command among the network's nodes, if there is a slot for the reservation that it
/// may be granted.
pub fn serve<C: PublicKey>(nodes: &mut [Node<C>], command: NetworkCommand<C>) -> NetworkReply<C>
    requires room { HasRoomFor C.cmp nodes.old command }
    ensures answered { IsNetworkAnswered C.cmp ⟦<C as Frames>⟧.wire command result nodes.old
        nodes.new }
    ensures written { IsNetworkWritten C.cmp ⟦<C as Frames>⟧.wire C.IsValue C.Signature.IsValue
        command result nodes.old }
    ensures carried { IsNetworkCarried C.cmp ⟦<C as Frames>⟧.wire command result nodes.old }
    ensures slots { KeepSlots C.cmp nodes.old nodes.new }
{
    match command {
        NetworkCommand::Call(node, command) => call(nodes, node, command),
        NetworkCommand::Ask(node, place) => ask(nodes, node, place),
        NetworkCommand::Frame(node, frame, now) => receive(nodes, node, frame, now),
        NetworkCommand::Exchange {
            asker,
            replier,
            place,
            asker_now,
            replier_now,
        } => exchange(nodes, asker, replier, place, asker_now, replier_now),
    }
}

// One of the network's nodes serves a command of a run.
fn call<C: PublicKey>(nodes: &mut [Node<C>], node: usize, command: Command<C>) -> NetworkReply<C>
    requires room { HasRoomFor C.cmp nodes.old (NetworkCommand.Call node command) }
    ensures answered { IsNetworkAnswered C.cmp ⟦<C as Frames>⟧.wire
        (NetworkCommand.Call node command) result nodes.old nodes.new }
    ensures slots { KeepSlots C.cmp nodes.old nodes.new }
{
    if node >= nodes.len() {
        return NetworkReply::NoNode;
    }
    NetworkReply::Call(nodes[node].serve(command))
}

/// One of the network's nodes serves a command, with a slot for the reservation that it may be
/// granted while it does.
pub fn step<C: PublicKey>(
    nodes: &mut [Node<C>],
    node: usize,
    command: Command<C>,
) -> NetworkReply<C>
    ensures served { IsNetworkServed C.cmp ⟦<C as Frames>⟧.wire (NetworkCommand.Call node command)
        result nodes.old nodes.new }
    ensures seen { IsServedAmong C.cmp ⟦<C as Frames>⟧.wire (NetworkCommand.Call node command)
        result nodes.old nodes.new }
    ensures room { KeepRoom C.cmp (NetworkCommand.Call node command) nodes.old nodes.new }
    ensures unchanged { may_change result ≡ false → AreSame nodes.old nodes.new }
{
    if node >= nodes.len() {
        return NetworkReply::NoNode;
    }
    NetworkReply::Call(nodes[node].step(command))
}

/// Asks one of the network's nodes for the frame of the bits at a position.
pub fn ask<C: PublicKey>(nodes: &[Node<C>], node: usize, place: usize) -> NetworkReply<C>
    ensures answered { IsNetworkAnswered C.cmp ⟦<C as Frames>⟧.wire (NetworkCommand.Ask node place)
        result nodes.now nodes.now }
    ensures written { IsNetworkWritten C.cmp ⟦<C as Frames>⟧.wire C.IsValue C.Signature.IsValue
        (NetworkCommand.Ask node place) result nodes.now }
    ensures seen { IsServedAmong C.cmp ⟦<C as Frames>⟧.wire (NetworkCommand.Ask node place) result
        nodes.now nodes.now }
{
    if node >= nodes.len() {
        return NetworkReply::NoNode;
    }
    reply_to_ask(nodes[node].ask_frame(place))
}

// The network's reply for what one of its nodes returns for `ask`.
fn reply_to_ask<C: PublicKey>(frame: Result<Option<Bytes>, AllocError>) -> NetworkReply<C>
    ensures { result ≡ networks.reply_to_ask frame }
{
    match frame {
        Ok(frame) => NetworkReply::Ask(frame),
        Err(AllocError) => NetworkReply::OutOfMemory,
    }
}

/// One of the network's nodes receives a frame.
pub fn receive<C: PublicKey>(
    nodes: &mut [Node<C>],
    node: usize,
    frame: Bytes,
    now: Duration,
) -> NetworkReply<C>
    ensures answered { IsNetworkAnswered C.cmp ⟦<C as Frames>⟧.wire (NetworkCommand.Frame node frame
        now) result nodes.old nodes.new }
    ensures written { IsNetworkWritten C.cmp ⟦<C as Frames>⟧.wire C.IsValue C.Signature.IsValue
        (NetworkCommand.Frame node frame now) result nodes.old }
    ensures seen { IsServedAmong C.cmp ⟦<C as Frames>⟧.wire (NetworkCommand.Frame node frame now)
        result nodes.old nodes.new }
    ensures slots { KeepSlots C.cmp nodes.old nodes.new }
    ensures room { KeepRoom C.cmp (NetworkCommand.Frame node frame now) nodes.old nodes.new }
    ensures unchanged { may_change result ≡ false → AreSame nodes.old nodes.new }
{
    if node >= nodes.len() {
        return NetworkReply::NoNode;
    }
    NetworkReply::Frame(nodes[node].answer(frame, now))
}

/// One of the network's nodes exchanges infos with another.
pub fn exchange<C: PublicKey>(
    nodes: &mut [Node<C>],
    asker: usize,
    replier: usize,
    place: usize,
    asker_now: Duration,
    replier_now: Duration,
) -> NetworkReply<C>
    ensures answered { IsNetworkAnswered C.cmp ⟦<C as Frames>⟧.wire (NetworkCommand.Exchange asker
        replier place asker_now replier_now) result nodes.old nodes.new }
    ensures seen { IsServedAmong C.cmp ⟦<C as Frames>⟧.wire (NetworkCommand.Exchange asker replier
        place asker_now replier_now) result nodes.old nodes.new }
    ensures carried { IsNetworkCarried C.cmp ⟦<C as Frames>⟧.wire (NetworkCommand.Exchange asker
        replier place asker_now replier_now) result nodes.old }
    ensures slots { KeepSlots C.cmp nodes.old nodes.new }
    ensures room { KeepRoom C.cmp
        (NetworkCommand.Exchange asker replier place asker_now replier_now) nodes.old nodes.new }
    ensures unchanged { may_change result ≡ false → AreSame nodes.old nodes.new }
{
    if asker >= nodes.len() || replier >= nodes.len() || asker == replier {
        return NetworkReply::NoNode;
    }
    NetworkReply::Exchange(exchange_between(nodes, asker, replier, place, asker_now, replier_now))
}

// Two of the network's nodes exchange infos.
fn exchange_between<C: PublicKey>(
    nodes: &mut [Node<C>],
    asker: usize,
    replier: usize,
    place: usize,
    asker_now: Duration,
    replier_now: Duration,
) -> Exchanged<C>
    requires asks { asker < length nodes.old }
    requires replies { replier < length nodes.old }
    requires differ { (asker == replier) ≡ false }
    ensures { ExchangesAmong C.cmp ⟦<C as Frames>⟧.wire asker replier place (as_nanos asker_now)
        (as_nanos replier_now) result nodes.old nodes.new }
{
    if asker < replier {
        let (front, back) = nodes.split_at_mut(replier);
        front[asker].exchange_with(&back[0], place, asker_now, replier_now)
    } else {
        let (front, back) = nodes.split_at_mut(asker);
        back[0].exchange_with(&front[replier], place, asker_now, replier_now)
    }
}
