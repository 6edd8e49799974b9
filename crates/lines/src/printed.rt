//! The printed forms of values.

ghost use Rattle.std.specs.Prelude.{Some};
ghost use Rattle.lines.specs.Printed.{hex_text, ip_text, socket_text, ingress_text, address_text};
ghost use Rattle.lines.specs.Printed.{info_text, data_text, bits_text, bit_vec_text};

use p2p_directory::directory::{PeerSetUpdate, TrackedPeers};
use p2p_directory::node::{Exchanged, NetworkReply, PairReply, Received};
use p2p_directory::record::Dialable;
use p2p_discovery::codec::TestKey;
use p2p_discovery::data::Data;
use p2p_discovery::discovery::{BitVec, Info, Infos, Payload};
use p2p_discovery::sets::{BitMap, OrderedSet};
use p2p_discovery::types::{Address, Ingress, IpAddr, SocketAddr};
use std::fmt;
use std::net::{Ipv4Addr, Ipv6Addr};
use std::time::Duration;

/// A value in its printed form.
#[derive(Drop)]
pub struct Line<'a, T>(pub &'a T);

/// Bytes as two hexadecimal digits each, and no bytes as a hyphen.
#[derive(Drop)]
pub struct Hex<'a>(pub &'a [u8]);

impl fmt::Display for Hex<'_> {
    ghost output = { λ h. Some (hex_text h.0.now) };

    fn fmt<W: fmt::Write>(&self, f: &mut fmt::Formatter<W>) -> fmt::Result {
        if self.0.is_empty() {
            return f.write_str("-");
        }
        for byte in self.0 {
            write!(f, "{:x}{:x}", *byte / 16, *byte % 16)?;
        }
        Ok(())
    }
}

/// Peers as a list of their numbers.
#[derive(Drop)]
struct Keys<'a>(&'a [TestKey]);

/// Bools as a digit each, and no bools as a hyphen.
#[derive(Drop)]
struct Bits<'a>(&'a BitMap);

impl fmt::Display for Bits<'_> {
    ghost output = { λ b. Some (bits_text b.0.now) };

    fn fmt<W: fmt::Write>(&self, f: &mut fmt::Formatter<W>) -> fmt::Result {
        if self.0.len() == 0 {
            return f.write_str("-");
        }
        for place in 0..self.0.len() {
            f.write_str(if self.0.get(place) { "1" } else { "0" })?;
        }
        Ok(())
    }
}

impl fmt::Display for Line<'_, BitVec> {
    ghost output = { λ l. Some (bit_vec_text l.0.now) };

    fn fmt<W: fmt::Write>(&self, f: &mut fmt::Formatter<W>) -> fmt::Result {
        let index = self.0.index;
        let bits = Bits(&self.0.bits);
        write!(f, "BitVec({index}, {bits})")
    }
}

impl fmt::Display for Line<'_, IpAddr> {
    ghost output = { λ l. Some (ip_text l.0.now) };

    fn fmt<W: fmt::Write>(&self, f: &mut fmt::Formatter<W>) -> fmt::Result {
        match self.0 {
            IpAddr::V4(octets) => write!(f, "{}", Ipv4Addr::from_octets(*octets)),
            IpAddr::V6(octets) => write!(f, "[{}]", Ipv6Addr::from_octets(*octets)),
        }
    }
}

impl fmt::Display for Line<'_, SocketAddr> {
    ghost output = { λ l. Some (socket_text l.0.now) };

    fn fmt<W: fmt::Write>(&self, f: &mut fmt::Formatter<W>) -> fmt::Result {
        write!(f, "{}:{}", Line(&self.0.ip()), self.0.port())
    }
}

impl fmt::Display for Line<'_, Ingress> {
    ghost output = { λ l. Some (ingress_text l.0.now) };

    fn fmt<W: fmt::Write>(&self, f: &mut fmt::Formatter<W>) -> fmt::Result {
        match self.0 {
            Ingress::Socket(socket) => write!(f, "{}", Line(socket)),
            Ingress::Dns { host, port } => write!(f, "~{}:{port}", host.as_str()),
        }
    }
}

impl fmt::Display for Line<'_, Address> {
    ghost output = { λ l. Some (address_text l.0.now) };

    fn fmt<W: fmt::Write>(&self, f: &mut fmt::Formatter<W>) -> fmt::Result {
        match self.0 {
            Address::Symmetric(socket) => write!(f, "Symmetric({})", Line(socket)),
            Address::Asymmetric { ingress, egress } => {
                write!(f, "Asymmetric({}, {})", Line(ingress), Line(egress))
            }
        }
    }
}

impl fmt::Display for Line<'_, Info<TestKey>> {
    ghost output = { λ l. Some (info_text l.0.now) };

    fn fmt<W: fmt::Write>(&self, f: &mut fmt::Formatter<W>) -> fmt::Result {
        let TestKey(number) = self.0.public_key;
        let timestamp = self.0.timestamp;
        write!(f, "Info({number}, {timestamp}, {})", Line(&self.0.ingress))
    }
}

/// Infos in brackets, separated by commas.
#[derive(Drop)]
pub struct InfoList<'a>(pub &'a [Info<TestKey>]);

impl fmt::Display for InfoList<'_> {
    fn fmt<W: fmt::Write>(&self, f: &mut fmt::Formatter<W>) -> fmt::Result {
        f.write_str("[")?;
        for (place, info) in self.0.iter().enumerate() {
            if place > 0 {
                f.write_str(", ")?;
            }
            write!(f, "{}", Line(info))?;
        }
        f.write_str("]")
    }
}

impl fmt::Display for Line<'_, Infos<TestKey>> {
    fn fmt<W: fmt::Write>(&self, f: &mut fmt::Formatter<W>) -> fmt::Result {
        write!(f, "{}", InfoList(self.0.as_slice()))
    }
}

impl fmt::Display for Line<'_, Data> {
    ghost output = { λ l. Some (data_text l.0.now) };

    fn fmt<W: fmt::Write>(&self, f: &mut fmt::Formatter<W>) -> fmt::Result {
        let channel = self.0.channel;
        let message = Hex(self.0.message.as_slice());
        write!(f, "Data({channel}, {message})")
    }
}

impl fmt::Display for Line<'_, Payload<TestKey>> {
    fn fmt<W: fmt::Write>(&self, f: &mut fmt::Formatter<W>) -> fmt::Result {
        match self.0 {
            Payload::Data(data) => write!(f, "{}", Line(data)),
            Payload::Greeting(info) => write!(f, "Greeting({})", Line(info)),
            Payload::BitVec(bits) => write!(f, "{}", Line(bits)),
            Payload::Peers(infos) => write!(f, "Peers({})", Line(infos)),
        }
    }
}

impl fmt::Display for Keys<'_> {
    fn fmt<W: fmt::Write>(&self, f: &mut fmt::Formatter<W>) -> fmt::Result {
        f.write_str("[")?;
        for (place, peer) in self.0.iter().enumerate() {
            if place > 0 {
                f.write_str(", ")?;
            }
            let TestKey(number) = *peer;
            write!(f, "{number}")?;
        }
        f.write_str("]")
    }
}

impl fmt::Display for Line<'_, OrderedSet<TestKey>> {
    fn fmt<W: fmt::Write>(&self, f: &mut fmt::Formatter<W>) -> fmt::Result {
        write!(f, "{}", Keys(self.0.as_slice()))
    }
}

impl fmt::Display for Line<'_, TrackedPeers<TestKey>> {
    fn fmt<W: fmt::Write>(&self, f: &mut fmt::Formatter<W>) -> fmt::Result {
        let primary = Line(&self.0.primary);
        let secondary = Line(&self.0.secondary);
        write!(f, "{primary} / {secondary}")
    }
}

impl fmt::Display for Line<'_, PeerSetUpdate<TestKey>> {
    fn fmt<W: fmt::Write>(&self, f: &mut fmt::Formatter<W>) -> fmt::Result {
        let index = self.0.index;
        let latest = Line(&self.0.latest);
        let all = Line(&self.0.all);
        write!(f, "{index}, {latest}, {all}")
    }
}

impl fmt::Display for Line<'_, Duration> {
    fn fmt<W: fmt::Write>(&self, f: &mut fmt::Formatter<W>) -> fmt::Result {
        let seconds = self.0.as_secs();
        let nanoseconds = self.0.subsec_nanos();
        write!(f, "{seconds}.{nanoseconds:09}")
    }
}

impl fmt::Display for Line<'_, Dialable<TestKey>> {
    fn fmt<W: fmt::Write>(&self, f: &mut fmt::Formatter<W>) -> fmt::Result {
        let peers = Keys(self.0.peers.as_slice());
        match &self.0.next_query_at {
            Some(moment) => write!(f, "{peers} Some({})", Line(moment)),
            None => write!(f, "{peers} None"),
        }
    }
}

impl fmt::Display for Line<'_, Received<TestKey>> {
    fn fmt<W: fmt::Write>(&self, f: &mut fmt::Formatter<W>) -> fmt::Result {
        match self.0 {
            Received::Data(data) => write!(f, "Data({})", Line(data)),
            Received::Greeted(_) => f.write_str("Greeted"),
            Received::Reply(frame) => write!(f, "Reply({})", Hex(frame.as_slice())),
            Received::Applied(count) => write!(f, "Applied({count})"),
            Received::Codec(fault) => write!(f, "Codec({fault:?})"),
            Received::Malformed => f.write_str("Malformed"),
            Received::Invalid(error) => write!(f, "Invalid({error:?})"),
            Received::Memory => f.write_str("Memory"),
        }
    }
}

impl fmt::Display for Line<'_, Exchanged<TestKey>> {
    fn fmt<W: fmt::Write>(&self, f: &mut fmt::Formatter<W>) -> fmt::Result {
        match self.0 {
            Exchanged::NoSet => f.write_str("NoSet"),
            Exchanged::AskRefused(fault) => write!(f, "AskRefused({fault:?})"),
            Exchanged::Malformed => f.write_str("Malformed"),
            Exchanged::ReplyRefused(fault) => write!(f, "ReplyRefused({fault:?})"),
            Exchanged::Invalid(error) => write!(f, "Invalid({error:?})"),
            Exchanged::Memory => f.write_str("Memory"),
            Exchanged::Applied(infos) => write!(f, "Applied({})", InfoList(infos.as_slice())),
        }
    }
}

impl fmt::Display for Line<'_, PairReply<TestKey>> {
    fn fmt<W: fmt::Write>(&self, f: &mut fmt::Formatter<W>) -> fmt::Result {
        match self.0 {
            PairReply::Call(reply) => write!(f, "{}", Line(reply)),
            PairReply::Ask(Some(frame)) => write!(f, "{}", Hex(frame.as_slice())),
            PairReply::Ask(None) => f.write_str("None"),
            PairReply::Frame(received) => write!(f, "{}", Line(received)),
            PairReply::Exchange(exchanged) => write!(f, "{}", Line(exchanged)),
            PairReply::OutOfMemory => f.write_str("OutOfMemory"),
        }
    }
}

impl fmt::Display for Line<'_, NetworkReply<TestKey>> {
    fn fmt<W: fmt::Write>(&self, f: &mut fmt::Formatter<W>) -> fmt::Result {
        match self.0 {
            NetworkReply::Call(reply) => write!(f, "{}", Line(reply)),
            NetworkReply::Ask(Some(frame)) => write!(f, "{}", Hex(frame.as_slice())),
            NetworkReply::Ask(None) => f.write_str("None"),
            NetworkReply::Frame(received) => write!(f, "{}", Line(received)),
            NetworkReply::Exchange(exchanged) => write!(f, "{}", Line(exchanged)),
            NetworkReply::OutOfMemory => f.write_str("OutOfMemory"),
            NetworkReply::NoNode => f.write_str("NoNode"),
        }
    }
}
