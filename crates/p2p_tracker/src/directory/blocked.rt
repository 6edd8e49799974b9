//! Blocks: who is blocked until when, and who is blocked at a time.

ghost use Rattle.std.specs.Prelude.{◌≡◌, ◌+◌, true, false, IfOk, OnErr};
ghost use Rattle.std.specs.Duration.{as_nanos};
ghost use Rattle.std.specs.List.{filter, list_any};
ghost use Rattle.std.specs.Map.{keys_of};
ghost use Rattle.std.specs.Option.{option_map, option_map_or};
ghost use Rattle.p2p_tracker.specs.Record.{is_myself};
ghost use Rattle.p2p_tracker.specs.Blocks.{is_blocked, in_nanos, is_later, unblock_in};
ghost use Rattle.p2p_tracker.specs.Lists.{Lists, Somebody};

use crate::directory::Directory;
use crate::directory::records::counts::ordered;
use crate::kept::blocks::Blocks;
use p2p_discovery::codec::PublicKey;
use p2p_discovery::sets::OrderedSet;
use std::alloc::{AllocError, Global};
use std::cmp::Ordering;
use std::collections::btree_map;
use std::time::Duration;

impl<C: PublicKey> Directory<C> {
    ghost use Rattle.p2p_tracker.specs.Blocks.{IsAnyUntil};
    ghost use Rattle.p2p_tracker.specs.Directory.{is_blocked_in, may_block, BlocksUntil};
    ghost use Rattle.p2p_tracker.specs.Directory.{EndsBlocks, StayBusy, StayReserved};
    ghost use Rattle.p2p_tracker.specs.Seen.{record_of, unblock_of};
    ghost use Rattle.p2p_tracker.specs.Lists.{IsLeastOf};
    ghost use Rattle.p2p_tracker.specs.Moments.{cap};

    /// Blocks the peer in the directory from the time `now` on, a duration since the epoch, for the
    /// configured duration, whether or not it has a record. The sum is capped at `Duration::MAX`.
    ///
    /// Returns false, doesn't allocate and changes nothing for the local node, or a peer that is
    /// blocked at `now`. Otherwise it returns true, and the peer is blocked until then; an earlier
    /// block that had ended is replaced. A connection of the peer stays.
    ///
    /// # Errors
    ///
    /// `AllocError` if an allocation fails; then nothing has changed.
    ///
    /// # Cost
    ///
    /// Constant for the local node, and for another peer one search among the blocks. If the block
    /// is accepted, one among their ends, or two if it replaces an ended block. If it is then the
    /// first to end, or the one that it replaces was, one more search among the blocks.
    pub fn block(&mut self, peer: &C, now: Duration) -> Result<bool, AllocError>
        ensures err { OnErr result (self.new ≡ self.old) }
        ensures untaken { may_block C.cmp self.old (as_nanos now) peer.now ≡ false →
            result ≡ Ok false }
        ensures answer { IfOk result (λ taken.
            taken ≡ may_block C.cmp self.old (as_nanos now) peer.now) }
        ensures refused { result ≡ Ok false → self.new ≡ self.old }
        ensures taken { result ≡ Ok true → BlocksUntil C.cmp self.old self.new peer.now
            (cap (as_nanos now + self.old.config.block_duration)) }
        ensures busy { StayBusy C.cmp self.old self.new }
        ensures reserved { StayReserved C.cmp self.old self.new }
    {
        if self.is_own(peer) {
            return Ok(false);
        }
        let until = now.saturating_add(self.config.block_duration);
        self.blocks.block(*peer, now, until)
    }

    /// Ends the directory's blocks that hold until the time `now`, a duration since the epoch, or
    /// until an earlier time, and returns whether there were any. Nothing else changes. It doesn't
    /// allocate.
    ///
    /// # Cost
    ///
    /// Constant if none ends. Otherwise, for each block that ends, one removal of the first of the
    /// ends and one among the blocks, and then one search for the first block that is left.
    pub fn unblock_expired(&mut self, now: Duration) -> bool
        ensures answer { IsAnyUntil (unblock_of C.cmp self.old) (as_nanos now) result }
        ensures ended { EndsBlocks C.cmp self.old self.new (as_nanos now) }
        ensures busy { StayBusy C.cmp self.old self.new }
        ensures reserved { StayReserved C.cmp self.old self.new }
    {
        self.blocks.drop_until(now) > 0
    }

    /// When the first block of the directory's blocked peers ends, as a duration since the epoch,
    /// or `None` if there is no block. A block that has ended counts until
    /// [`Directory::unblock_expired`] removes it. It doesn't allocate.
    ///
    /// # Cost
    ///
    /// Constant.
    pub fn next_unblock(&self) -> Option<Duration>
        ensures { IsLeastOf (unblock_of C.cmp self.now) (option_map as_nanos result) }
    {
        match self.blocks.least() {
            Some((moment, _)) => Some(moment),
            None => None,
        }
    }

    /// The peers that are blocked in the directory at the time `now`, a duration since the epoch:
    /// those whose block ends later.
    ///
    /// # Errors
    ///
    /// `AllocError` if an allocation fails. It allocates only if a peer is blocked.
    ///
    /// # Cost
    ///
    /// One pass over the blocks, and one sort of the peers.
    pub fn blocked_peers(&self, now: Duration) -> Result<OrderedSet<C>, AllocError>
        ensures peers { IfOk result (Lists C.cmp (is_blocked_in C.cmp self.now (as_nanos now))) }
        ensures err { OnErr result (Somebody (is_blocked_in C.cmp self.now (as_nanos now))) }
    {
        blocked_at(self.alloc, &self.blocks, now)
    }

    // Whether the peer is the directory's local node, which is never blocked.
    fn is_own(&self, peer: &C) -> bool
        ensures { result ≡ option_map_or (λ r. is_myself r.address)
            (record_of C.cmp self.now peer.now) false }
    {
        self.own.cmp(peer) == Ordering::Equal
    }

    // Whether the peer is blocked in the directory at this time.
    pub(super) fn is_blocked(&self, peer: &C, now: Duration) -> bool
        ensures { result ≡ is_blocked_in C.cmp self.now (as_nanos now) peer.now }
    {
        match self.blocks.get(peer) {
            Some(until) => now.as_nanos() < until.as_nanos(),
            None => false,
        }
    }
}

/// The peers that are blocked in a directory by these blocks at the time `now`, a duration since
/// the epoch.
///
/// # Errors
///
/// `AllocError` if an allocation fails. It allocates only if there is such a peer.
///
/// # Cost
///
/// One pass over the blocks, and one sort of the peers.
pub fn blocked_at<C: PublicKey>(
    alloc: Global,
    blocks: &Blocks<C>,
    now: Duration,
) -> Result<OrderedSet<C>, AllocError>
    ensures peers { IfOk result (Lists C.cmp
        (λ q. is_blocked (unblock_in C.cmp blocks.now q) (as_nanos now))) }
    ensures err { OnErr result (Somebody
        (λ q. is_blocked (unblock_in C.cmp blocks.now q) (as_nanos now))) }
{
    let peers = peers_after(alloc, blocks.iter(), now)?;
    Ok(ordered(peers))
}

// Those of the directory's peers that are still blocked at `now`, as their blocks end later, in
// their order.
fn peers_after<C: PublicKey>(
    alloc: Global,
    blocks: btree_map::Iter<'_, C, Duration>,
    now: Duration,
) -> Result<Vec<C>, AllocError>
    ensures peers { IfOk result (λ peers.
        peers.items ≡ keys_of (filter (is_later (as_nanos now)) (in_nanos blocks.entry))) }
    ensures err { OnErr result
        (list_any (is_later (as_nanos now)) (in_nanos blocks.entry) ≡ true) }
{
    let mut peers = Vec::new(alloc);
    for (peer, moment) in blocks {
        if now.as_nanos() < moment.as_nanos() {
            peers.push(*peer)?;
        }
    }
    Ok(peers)
}
