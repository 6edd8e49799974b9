//! Worked examples of sizes.

use crate::row::{Stop, print};
use p2p_discovery::codec::TestKey;
use p2p_discovery::discovery::{Info, max_gossip_size};
use p2p_discovery::sizing::{max_message_size, max_retained_peers, peer_set_limit, peer_set_size};
use std::io::Write;
use std::num::NonZeroUsize;

/// Prints the row of maximum sizes of gossip, and of an info.
pub fn gossip_sizes<W: Write>(out: &mut W) -> Result<(), Stop> {
    print(out, &max_gossip_size::<TestKey>(1_000, 32))?;
    print(out, &max_gossip_size::<TestKey>(100_000, 0))?;
    print(out, &Info::<TestKey>::max_encode_size())
}

/// Prints the row of sizes of messages and of sets of peers.
pub fn sizes<W: Write>(out: &mut W) -> Result<(), Stop> {
    message_sizes(out)?;
    retained_peers(out)?;
    set_sizes(out)
}

fn message_sizes<W: Write>(out: &mut W) -> Result<(), Stop> {
    print(out, &max_message_size(&[]))?;
    print(out, &max_message_size(&[3, 7, 5]))?;
    print(out, &max_message_size(&[0, 4_294_967_295]))
}

fn retained_peers<W: Write>(out: &mut W) -> Result<(), Stop> {
    let three = NonZeroUsize::MIN.saturating_add(2);
    let four = NonZeroUsize::MIN.saturating_add(3);
    print(out, &max_retained_peers(three, four, 2).get())?;
    let participants = [TestKey(1), TestKey(2)];
    print(out, &peer_set_limit(&participants, &TestKey(1)).get())?;
    print(out, &peer_set_limit(&participants, &TestKey(3)).get())
}

fn set_sizes<W: Write>(out: &mut W) -> Result<(), Stop> {
    print(out, &set_size(None))?;
    print(out, &set_size(Some(&TestKey(2))))?;
    print(out, &set_size(Some(&TestKey(4))))
}

// The size of a set in a row, the number of peers of the sets [1, 3] and [2, 3] and one more.
fn set_size(extension: Option<&TestKey>) -> usize {
    peer_set_size(
        &[TestKey(1), TestKey(3)],
        &[TestKey(2), TestKey(3)],
        extension,
    )
}
