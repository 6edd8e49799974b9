//! The results of a directory's queries, as text to be compared, and the marks.

ghost use Rattle.std.specs.Prelude.{◌≡◌, Ok, true, false, string_bytes};

use p2p_directory::directory::Directory;
use p2p_discovery::codec::TestKey;
use p2p_discovery::discovery::BitVec;
use p2p_discovery::sets::BitMap;
use std::alloc::{AllocError, Global};
use std::fmt::Write;
use std::time::Duration;

// A request of exactly so many bytes is a mark.
const MARK: usize = 1_234_577;

/// Requests a mark from the script that refuses memory: from now on requests are counted, or no
/// longer are.
pub fn mark(alloc: Global) {
    let _mark: Result<Vec<u8>, AllocError> = Vec::with_capacity(alloc, MARK);
}

// The peers with keys below this are asked about.
const KEYS: u64 = 20;

// In seconds: before, between and after the times of cooldowns and blocks.
static MOMENTS: [u64; 8] = [0, 59, 60, 100, 105, 110, 160, 1_000];

fn seconds(count: u64) -> Duration {
    Duration::from_secs(count)
}

fn tells_of_peers(text: &mut String, directory: &Directory<TestKey>) -> Result<(), AllocError> {
    for key in 0..KEYS {
        let peer = TestKey(key);
        let status = directory.status(&peer);
        let eligible = directory.eligible(&peer, seconds(100));
        let acceptable = directory.acceptable(&peer, seconds(100));
        let info = directory.info(&peer)?;
        write!(
            text,
            "{peer:?} {status:?} {eligible:?} {acceptable:?} {info:?}\n"
        )?;
    }
    Ok(())
}

fn tells_of_moments(text: &mut String, directory: &Directory<TestKey>) -> Result<(), AllocError> {
    for moment in MOMENTS {
        let dialable = directory.dialable(seconds(moment))?;
        let blocked = directory.blocked_peers(seconds(moment))?;
        write!(text, "{dialable:?} {blocked:?}\n")?;
    }
    Ok(())
}

// Tells in the text the set at a position, its bits, and what is shared with a peer that knows none
// of it.
fn tells_of_set(
    text: &mut String,
    alloc: Global,
    directory: &Directory<TestKey>,
    known: BitVec,
) -> Result<(), AllocError> {
    let set = directory.get_peer_set(known.index)?;
    let nobody = BitVec {
        index: known.index,
        bits: BitMap::zeroes(alloc, known.bits.len())?,
    };
    let infos = directory.infos(&nobody, seconds(1_000))?;
    write!(text, "{known:?} {set:?} {infos:?}\n")
}

fn tells_of_sets(
    text: &mut String,
    alloc: Global,
    directory: &Directory<TestKey>,
) -> Result<(), AllocError> {
    for place in 0..3 {
        if let Some(known) = directory.get_random_bit_vec(place)? {
            tells_of_set(text, alloc, directory, known)?;
        }
    }
    let index = directory.latest_set_index();
    let tracked = directory.tracked();
    let unblock = directory.next_unblock();
    let update = directory.latest_update()?;
    let all = directory.all()?;
    write!(
        text,
        "{index:?} {tracked:?} {unblock:?} {update:?} {all:?}\n"
    )
}

/// Tells in the text the results of all queries of a directory.
pub fn tells(
    text: &mut String,
    alloc: Global,
    directory: &Directory<TestKey>,
) -> Result<(), AllocError> {
    tells_of_peers(text, directory)?;
    tells_of_moments(text, directory)?;
    tells_of_sets(text, alloc, directory)
}

/// What a directory told by all its queries, as a new text.
pub fn words_of(alloc: Global, directory: &Directory<TestKey>) -> Result<String, AllocError> {
    let mut words = String::new(alloc);
    tells(&mut words, alloc, directory)?;
    Ok(words)
}

/// Ends a directory that told its results. Each is dropped here: a place where one is dropped takes
/// a check as long as that of a whole function.
pub fn end(_directory: Directory<TestKey>) {}

/// Tells whether two texts are the same after memory was refused.
pub fn compares(
    text: &mut String,
    what: &'static str,
    one: &String,
    other: &String,
) -> Result<bool, AllocError>
    ensures same { result ≡ Ok true → string_bytes one.now ≡ string_bytes other.now }
    ensures differ { result ≡ Ok false → ¬ (string_bytes one.now ≡ string_bytes other.now) }
{
    let is_same = one.as_str() == other.as_str();
    let told = if is_same { "the same" } else { "not the same" };
    write!(text, "{what}: {told}\n")?;
    Ok(is_same)
}
