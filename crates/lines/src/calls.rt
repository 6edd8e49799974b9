//! The commands: how each is typed, parsed, and its reply printed.

use crate::fault::Fault;
use crate::parse::infos::infos;
use crate::parse::nearest::nearest_command;
use crate::parse::words::{Words, bits};
use crate::printed::{InfoList, Line};
use crate::usage::Usage;
use p2p_directory::run::{Command, Reply};
use p2p_discovery::codec::TestKey;
use p2p_discovery::discovery::BitVec;
use std::alloc::Global;
use std::fmt;

/// All commands: the name, what is typed after it, and the reply.
pub static COMMANDS: [(&'static str, &'static str, &'static str); 33] = [
    (
        "node",
        "NAME [KEY=VALUE ..]",
        "ready: there is a new node of this name",
    ),
    ("track", "I LIST [/ LIST]", "the peers to disconnect"),
    ("dial", "P T [DRAW]", "granted, refused"),
    ("listen", "P T [DRAW]", "granted, refused"),
    ("connect", "P BOOL", "done, NotReserved"),
    ("release", "P", "done, NotHeld"),
    ("update", "INFOS", "done"),
    ("block", "P T", "whether the block was accepted"),
    ("unblock_expired", "T", "whether a block had ended"),
    ("forget_cooled", "T", "how many were forgotten"),
    ("next_unblock", "", "when the first block ends, or None"),
    ("blocked_peers", "T", "the peers"),
    ("get_peer_set", "I", "the set, or None"),
    ("latest_update", "", "the last set and all peers, or None"),
    ("latest_set_index", "", "the index, or None"),
    ("all", "", "the peers of all sets"),
    ("status", "P", "Inert, Reserved, Active, None"),
    ("info", "P", "the info that may be shared, or None"),
    ("ingress", "P", "the address that is held, or None"),
    ("infos", "I BITS T", "the infos that may be shared, or None"),
    ("bits", "PLACE", "the bits of the set there, or None"),
    ("eligible", "P T", "true, false"),
    ("acceptable", "P T", "true, false"),
    ("may_listen", "P T", "true, false"),
    ("dialable", "T", "the peers, and when to ask again"),
    ("tracked", "", "how many peers have a record"),
    ("ask", "PLACE", "the frame that asks, or None"),
    ("receive", "HEX T", "the result for the frame"),
    (
        "exchange",
        "OTHER PLACE ASKER_T REPLIER_T",
        "the result of asking the other node",
    ),
    ("decode", "KIND HEX", "the value, or why it is refused"),
    ("recode", "KIND HEX", "the bytes of the value"),
    ("frame", "FORM", "the bytes of a payload"),
    ("=", "TEXT", "none: the reply before has to be TEXT"),
];

/// How the command of this name is typed in a line.
pub fn usage_of(name: &str) -> Option<Usage> {
    COMMANDS
        .iter()
        .find(|command| command.0 == name)
        .map(|command| Usage {
            name: command.0,
            arguments: command.1,
        })
}

/// Parses the words of the command of this name, its arguments. Infos are signed in the namespace.
pub fn command(
    alloc: Global,
    name: &str,
    words: &mut Words<'_>,
    namespace: &[u8],
) -> Result<Command<TestKey>, Fault> {
    Ok(match name {
        "track" => Command::Track {
            index: words.number()?,
            peers: words.tracked(alloc)?,
        },
        "update" => Command::UpdatePeers(infos(alloc, words.word()?, namespace)?),
        "infos" => Command::Infos {
            bit_vec: bit_vec(alloc, words)?,
            now: words.moment()?,
        },
        "next_unblock" => Command::NextUnblock,
        "latest_update" => Command::LatestUpdate,
        "latest_set_index" => Command::LatestSetIndex,
        "all" => Command::All,
        "tracked" => Command::Tracked,
        _ => return of_a_peer_or_moment(name, words),
    })
}

/// Parses the words of a command that are an index and bits.
pub fn bit_vec(alloc: Global, words: &mut Words<'_>) -> Result<BitVec, Fault> {
    Ok(BitVec {
        index: words.number()?,
        bits: bits(alloc, words.word()?)?,
    })
}

fn of_a_peer_or_moment(name: &str, words: &mut Words<'_>) -> Result<Command<TestKey>, Fault> {
    Ok(match name {
        "release" => Command::Release(words.peer()?),
        "status" => Command::Status(words.peer()?),
        "info" => Command::Info(words.peer()?),
        "ingress" => Command::Ingress(words.peer()?),
        "get_peer_set" => Command::GetPeerSet(words.number()?),
        "bits" => Command::GetRandomBitVec(words.size()?),
        "unblock_expired" => Command::UnblockExpired(words.moment()?),
        "forget_cooled" => Command::ForgetCooled(words.moment()?),
        "blocked_peers" => Command::BlockedPeers(words.moment()?),
        "dialable" => Command::Dialable(words.moment()?),
        _ => return of_a_peer_and_more(name, words),
    })
}

fn of_a_peer_and_more(name: &str, words: &mut Words<'_>) -> Result<Command<TestKey>, Fault> {
    Ok(match name {
        "dial" => Command::Dial {
            peer: words.peer()?,
            now: words.moment()?,
            draw: words.draw()?,
        },
        "listen" => Command::Listen {
            peer: words.peer()?,
            now: words.moment()?,
            draw: words.draw()?,
        },
        "connect" => Command::Connect {
            peer: words.peer()?,
            dialer: words.truth()?,
        },
        "block" => Command::Block {
            peer: words.peer()?,
            now: words.moment()?,
        },
        "eligible" => Command::Eligible {
            peer: words.peer()?,
            now: words.moment()?,
        },
        "acceptable" => Command::Acceptable {
            peer: words.peer()?,
            now: words.moment()?,
        },
        "may_listen" => Command::MayListen {
            peer: words.peer()?,
            now: words.moment()?,
        },
        _ => return Err(Fault::Unknown("command", nearest_command(name))),
    })
}

impl fmt::Display for Line<'_, Reply<TestKey>> {
    fn fmt<W: fmt::Write>(&self, f: &mut fmt::Formatter<W>) -> fmt::Result {
        match self.0 {
            Reply::Track(None)
            | Reply::NextUnblock(None)
            | Reply::Status(None)
            | Reply::GetPeerSet(None)
            | Reply::LatestSetIndex(None)
            | Reply::LatestUpdate(None)
            | Reply::Info(None)
            | Reply::Ingress(None)
            | Reply::Infos(None)
            | Reply::GetRandomBitVec(None) => f.write_str("None"),
            Reply::Track(Some(torn)) => write!(f, "Some({})", Line(torn)),
            Reply::Dial(granted) | Reply::Listen(granted) => {
                f.write_str(if *granted { "granted" } else { "refused" })
            }
            Reply::Connect | Reply::Release | Reply::UpdatePeers => f.write_str("done"),
            Reply::Block(answer)
            | Reply::UnblockExpired(answer)
            | Reply::Eligible(answer)
            | Reply::Acceptable(answer)
            | Reply::MayListen(answer) => write!(f, "{answer}"),
            Reply::NextUnblock(Some(moment)) => write!(f, "Some({})", Line(moment)),
            Reply::BlockedPeers(peers) => write!(f, "{}", Line(peers)),
            Reply::Status(Some(status)) => write!(f, "{status:?}"),
            Reply::GetPeerSet(Some(peers)) => write!(f, "Some({})", Line(peers)),
            Reply::LatestSetIndex(Some(index)) => write!(f, "Some({index})"),
            Reply::LatestUpdate(Some(update)) => write!(f, "Some({})", Line(update)),
            Reply::All(peers) => write!(f, "{}", Line(peers)),
            Reply::Info(Some(info)) => write!(f, "{}", Line(info)),
            Reply::Ingress(Some(ingress)) => write!(f, "{}", Line(ingress)),
            Reply::Infos(Some(infos)) => write!(f, "Some({})", InfoList(infos.as_slice())),
            Reply::GetRandomBitVec(Some(bits)) => write!(f, "{}", Line(bits)),
            Reply::Dialable(dialable) => write!(f, "{}", Line(dialable)),
            Reply::ForgetCooled(count) | Reply::Tracked(count) => write!(f, "{count}"),
            Reply::NotReserved => f.write_str("NotReserved"),
            Reply::NotHeld => f.write_str("NotHeld"),
            Reply::OutOfMemory => f.write_str("OutOfMemory"),
        }
    }
}
