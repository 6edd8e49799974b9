//! Commands and their replies.

ghost use Rattle.std.specs.Prelude.{◌≡◌};
ghost use Rattle.p2p_directory.specs.Private.Serving.{reserved_peer};

use p2p_discovery::codec::PublicKey;
use p2p_discovery::discovery::{BitVec, Info};
use p2p_discovery::sets::OrderedSet;
use p2p_discovery::types::Ingress;
use p2p_tracker::directory::{PeerSetUpdate, TrackedPeers};
use p2p_tracker::record::{Dialable, Status};
use std::fmt;
use std::time::Duration;

/// One call of a directory.
#[derive(Drop)]
pub enum Command<C: PublicKey> {
    /// [`Directory::track`]: registers a peer set.
    Track {
        /// The index of the set.
        index: u64,
        /// Its peers.
        peers: TrackedPeers<C>,
    },
    /// [`Directory::dial`]: reserves a peer to be dialled. A granted reservation is held.
    Dial {
        /// The peer to be dialled.
        peer: C,
        /// The present time, as a duration since the epoch.
        now: Duration,
        /// The jitter: how much later than reservable the peer becomes dialable again, within its
        /// bound.
        draw: Duration,
    },
    /// [`Directory::listen`]: reserves an inbound peer. A granted reservation is held.
    Listen {
        /// The inbound peer.
        peer: C,
        /// The present time, as a duration since the epoch.
        now: Duration,
        /// The jitter: how much later than reservable the peer becomes dialable again, within its
        /// bound.
        draw: Duration,
    },
    /// [`Directory::connect`] of a peer that is reserved.
    Connect {
        /// The peer.
        peer: C,
        /// Whether the local node dialled it.
        dialer: bool,
    },
    /// [`Directory::release`] of this peer's reservation, if one is held.
    Release(C),
    /// [`Directory::update_peers`] with these infos.
    UpdatePeers(Vec<Info<C>>),
    /// [`Directory::block`]: blocks a peer.
    Block {
        /// The peer.
        peer: C,
        /// The present time, as a duration since the epoch.
        now: Duration,
    },
    /// [`Directory::unblock_expired`] at this time, a duration since the epoch.
    UnblockExpired(Duration),
    /// [`Directory::forget_cooled`] at this time, a duration since the epoch.
    ForgetCooled(Duration),
    /// [`Directory::next_unblock`].
    NextUnblock,
    /// [`Directory::blocked_peers`] at this time, a duration since the epoch.
    BlockedPeers(Duration),
    /// [`Directory::status`] of this peer.
    Status(C),
    /// [`Directory::get_peer_set`] with this index.
    GetPeerSet(u64),
    /// [`Directory::latest_update`].
    LatestUpdate,
    /// [`Directory::latest_set_index`].
    LatestSetIndex,
    /// [`Directory::all`].
    All,
    /// [`Directory::info`] of this peer.
    Info(C),
    /// [`Directory::ingress`] of this peer.
    Ingress(C),
    /// [`Directory::infos`] for a peer that sent some bits.
    Infos {
        /// The bits, with the index of their set.
        bit_vec: BitVec,
        /// The present time, as a duration since the epoch.
        now: Duration,
    },
    /// [`Directory::get_random_bit_vec`] at this position.
    GetRandomBitVec(usize),
    /// [`Directory::eligible`] of a peer.
    Eligible {
        /// The peer.
        peer: C,
        /// The present time, as a duration since the epoch.
        now: Duration,
    },
    /// [`Directory::acceptable`] of a peer.
    Acceptable {
        /// The peer.
        peer: C,
        /// The present time, as a duration since the epoch.
        now: Duration,
    },
    /// [`Directory::may_listen`] of a peer.
    MayListen {
        /// The peer.
        peer: C,
        /// The present time, as a duration since the epoch.
        now: Duration,
    },
    /// [`Directory::dialable`] at this time, a duration since the epoch.
    Dialable(Duration),
    /// [`Directory::tracked`].
    Tracked,
}

impl<C: PublicKey> Command<C> {
    // The peer that the command of a run may reserve, if there is one.
    pub(crate) fn reserved_peer(&self) -> Option<C>
        ensures { result ≡ reserved_peer self.now }
    {
        match self {
            Command::Dial { peer, .. } | Command::Listen { peer, .. } => Some(*peer),
            Command::Track { .. }
            | Command::Connect { .. }
            | Command::Release(_)
            | Command::UpdatePeers(_)
            | Command::Block { .. }
            | Command::UnblockExpired(_)
            | Command::ForgetCooled(_)
            | Command::NextUnblock
            | Command::BlockedPeers(_)
            | Command::Status(_)
            | Command::GetPeerSet(_)
            | Command::LatestUpdate
            | Command::LatestSetIndex
            | Command::All
            | Command::Info(_)
            | Command::Ingress(_)
            | Command::Infos { .. }
            | Command::GetRandomBitVec(_)
            | Command::Eligible { .. }
            | Command::Acceptable { .. }
            | Command::MayListen { .. }
            | Command::Dialable(_)
            | Command::Tracked => None,
        }
    }
}

/// The reply to a command.
#[derive(Drop)]
pub enum Reply<C: PublicKey> {
    /// The result of [`Directory::track`]: the peers that must be disconnected, or `None` if the
    /// set was not accepted.
    Track(Option<OrderedSet<C>>),
    /// Whether the reservation was granted, for a dial.
    Dial(bool),
    /// Whether the reservation was granted, for an inbound peer.
    Listen(bool),
    /// The peer is connected.
    Connect,
    /// The reservation was released.
    Release,
    /// The infos were offered to the records of their peers.
    UpdatePeers,
    /// The result of [`Directory::block`]: whether the block was accepted.
    Block(bool),
    /// The result of [`Directory::unblock_expired`]: whether any block had ended.
    UnblockExpired(bool),
    /// The result of [`Directory::forget_cooled`]: how many cooldowns were forgotten.
    ForgetCooled(usize),
    /// The result of [`Directory::next_unblock`]: `None` if there is no block.
    NextUnblock(Option<Duration>),
    /// The result of [`Directory::blocked_peers`].
    BlockedPeers(OrderedSet<C>),
    /// The result of [`Directory::status`]: `None` if there is no record of the peer.
    Status(Option<Status>),
    /// The result of [`Directory::get_peer_set`]: `None` if no retained set has the index.
    GetPeerSet(Option<TrackedPeers<C>>),
    /// The result of [`Directory::latest_set_index`]: `None` if no set was registered.
    LatestSetIndex(Option<u64>),
    /// The result of [`Directory::latest_update`]: `None` if no set was registered.
    LatestUpdate(Option<PeerSetUpdate<C>>),
    /// The result of [`Directory::all`]: the peers of the retained sets, by role.
    All(TrackedPeers<C>),
    /// The result of [`Directory::info`]: `None` if there is no info that may be shared.
    Info(Option<Info<C>>),
    /// The result of [`Directory::ingress`]: `None` if no address of the peer is held.
    Ingress(Option<Ingress>),
    /// The result of [`Directory::infos`]: `None` if the number of bits differs from the number of
    /// primary peers of the set.
    Infos(Option<Vec<Info<C>>>),
    /// The result of [`Directory::get_random_bit_vec`]: `None` if there is no such position.
    GetRandomBitVec(Option<BitVec>),
    /// The result of [`Directory::eligible`]: whether the peer may be connected.
    Eligible(bool),
    /// The result of [`Directory::acceptable`]: whether an inbound connection of the peer may be
    /// accepted.
    Acceptable(bool),
    /// The result of [`Directory::may_listen`]: whether [`Directory::listen`] would grant the peer
    /// a reservation.
    MayListen(bool),
    /// The result of [`Directory::dialable`]: who may be dialled, and when to ask again.
    Dialable(Dialable<C>),
    /// The result of [`Directory::tracked`]: how many peers have a record, not counting the local
    /// node.
    Tracked(usize),
    /// There is nothing to connect: the peer is not reserved, and nothing has changed.
    NotReserved,
    /// There is nothing to release: no reservation of the peer is held, and nothing has changed.
    NotHeld,
    /// An allocation failed, and nothing has changed.
    OutOfMemory,
}

impl<C: PublicKey> fmt::Debug for Reply<C> {
    /// Writes the reply to a run's command, by the name of the variant alone.
    fn fmt<W: fmt::Write>(&self, f: &mut fmt::Formatter<W>) -> fmt::Result {
        f.write_str(variant_name(self))
    }
}

fn variant_name<C: PublicKey>(reply: &Reply<C>) -> &'static str {
    match reply {
        Reply::Track(_) => "Track",
        Reply::Dial(_) => "Dial",
        Reply::Listen(_) => "Listen",
        Reply::Connect => "Connect",
        Reply::Release => "Release",
        Reply::UpdatePeers => "UpdatePeers",
        Reply::Block(_) => "Block",
        Reply::UnblockExpired(_) => "UnblockExpired",
        Reply::ForgetCooled(_) => "ForgetCooled",
        Reply::NextUnblock(_) => "NextUnblock",
        Reply::BlockedPeers(_) => "BlockedPeers",
        Reply::Status(_) => "Status",
        Reply::GetPeerSet(_) => "GetPeerSet",
        Reply::LatestSetIndex(_) => "LatestSetIndex",
        Reply::LatestUpdate(_) => "LatestUpdate",
        Reply::All(_) => "All",
        Reply::Info(_) => "Info",
        Reply::Ingress(_) => "Ingress",
        Reply::Infos(_) => "Infos",
        Reply::GetRandomBitVec(_) => "GetRandomBitVec",
        Reply::Eligible(_) => "Eligible",
        Reply::Acceptable(_) => "Acceptable",
        Reply::MayListen(_) => "MayListen",
        Reply::Dialable(_) => "Dialable",
        Reply::Tracked(_) => "Tracked",
        Reply::NotReserved => "NotReserved",
        Reply::NotHeld => "NotHeld",
        Reply::OutOfMemory => "OutOfMemory",
    }
}
