//! What each call leaves if an allocation fails.

use crate::assertions::{assert_holds, assert_same, assert_same_for};
use bytes::Bytes;
use failing_alloc::{FailingAlloc, STEP};
use p2p_discovery::codec::{CodecError, RangeCfg, Read, TestKey, Write};
use p2p_discovery::data::Data;
use p2p_discovery::discovery::{Info, Infos};
use p2p_discovery::types::{Address, Hostname, Ingress, IpAddr, SocketAddr};
use std::alloc::{AllocError, Global};
use std::process::Abort;
use std::test::Fail;
use std::time::Duration;

pub(crate) const STEPS: usize = 256;

const NAME: &str = "a-name-of-a-machine-that-takes-memory.and-not-a-little.example.com";

/// The results at all budgets: how often an allocation failed, and how often memory was sufficient.
#[derive(Clone, Copy)]
pub(crate) struct Tally {
    pub(crate) refused: usize,
    pub(crate) done: usize,
}

impl Tally {
    pub(crate) const EMPTY: Tally = Tally {
        refused: 0,
        done: 0,
    };

    pub(crate) fn count(&mut self, refused: bool) {
        if refused {
            self.refused = self.refused.saturating_add(1);
        } else {
            self.done = self.done.saturating_add(1);
        }
    }

    /// Asserts that some budget ran out of memory, and that another was sufficient.
    pub(crate) fn is_mixed(&self, rt: &impl Abort) {
        assert!(rt; self.refused > 0, "nothing was refused");
        assert!(rt; self.done > 0, "each call was refused");
    }
}

/// Whether reading ran out of memory. If so, asserts that the buffer is unchanged. Otherwise
/// asserts that the value was read and the buffer is empty.
fn is_unread<T: PartialEq + Drop>(
    rt: &impl Abort,
    value: &T,
    frame: &[u8],
    read: Result<T, CodecError>,
    buf: &Bytes,
    step: usize,
) -> bool {
    match read {
        Ok(read) => {
            assert_holds(rt, read == *value, step);
            assert_holds(rt, buf.is_empty(), step);
            false
        }
        Err(error) => {
            assert_same_for(rt, error, CodecError::Memory, step);
            assert_same_for(rt, buf.as_slice(), frame, step);
            true
        }
    }
}

/// Whether decoding ran out of memory. Otherwise asserts that it returned the value.
fn is_undecoded<T: PartialEq + Drop>(
    rt: &impl Abort,
    value: &T,
    decoded: Result<T, CodecError>,
    step: usize,
) -> bool {
    match decoded {
        Ok(decoded) => {
            assert_holds(rt, decoded == *value, step);
            false
        }
        Err(error) => {
            assert_same_for(rt, error, CodecError::Memory, step);
            true
        }
    }
}

/// Whether encoding ran out of memory. Otherwise asserts that it returned the frame.
fn is_unencoded(
    rt: &impl Abort,
    frame: &[u8],
    encoded: Result<Bytes, AllocError>,
    step: usize,
) -> bool {
    match encoded {
        Ok(encoded) => {
            assert_same_for(rt, encoded.as_slice(), frame, step);
            false
        }
        Err(_) => true,
    }
}

/// Encodes, reads and decodes a value at a budget that may run out of memory. Asserts that each
/// result is right or out of memory, and that reading then leaves its buffer unchanged. Returns
/// whether reading, decoding and encoding ran out of memory.
fn reads_within<T: Read<Cfg = ()> + Write + PartialEq>(
    rt: &impl Abort,
    alloc: Global,
    memory: &mut FailingAlloc,
    value: &T,
    frame: &[u8],
    step: usize,
) -> Result<(bool, bool, bool), Fail>
    requires { T.CanSpell value.now }
{
    let mut buf = Bytes::copy_from_slice(alloc, frame)?;
    let whole = Bytes::copy_from_slice(alloc, frame)?;
    memory.limit(alloc, step.saturating_mul(STEP))?;
    // This is first, because decoding frees a buffer of just the size that encoding allocates.
    let encoded = value.encode(alloc);
    let read = T::read_cfg(alloc, &mut buf, &());
    let decoded = T::decode(alloc, whole);
    memory.lift();
    let unread = is_unread(rt, value, frame, read, &buf, step);
    let undecoded = is_undecoded(rt, value, decoded, step);
    Ok((unread, undecoded, is_unencoded(rt, frame, encoded, step)))
}

/// Calls `reads_within` at each budget, to run out of memory at some. Asserts that reading,
/// decoding and encoding each run out of memory at some budget and succeed at another.
fn reads_at_each_budget<T: Read<Cfg = ()> + Write + PartialEq>(
    rt: &impl Abort,
    alloc: Global,
    memory: &mut FailingAlloc,
    value: &T,
) -> Result<(), Fail>
    requires { T.CanSpell value.now }
{
    let frame = value.encode(alloc)?;
    let (mut read, mut decoded, mut encoded) = (Tally::EMPTY, Tally::EMPTY, Tally::EMPTY);
    for step in 0..STEPS {
        let refused = reads_within(rt, alloc, memory, value, frame.as_slice(), step)?;
        read.count(refused.0);
        decoded.count(refused.1);
        encoded.count(refused.2);
    }
    read.is_mixed(rt);
    decoded.is_mixed(rt);
    encoded.is_mixed(rt);
    Ok(())
}

fn named_ingress(host: &Hostname) -> Result<Ingress, AllocError> {
    Ok(Ingress::Dns {
        host: host.clone()?,
        port: 80,
    })
}

fn named_address(host: &Hostname) -> Result<Address, AllocError> {
    Ok(Address::Asymmetric {
        ingress: named_ingress(host)?,
        egress: SocketAddr::new(IpAddr::V4([1, 2, 3, 4]), 5),
    })
}

#[test]
fn codecs_of_addresses_are_refused(rt: HostRuntime) -> Result<(), Fail> {
    let alloc = rt.alloc();
    let mut memory = FailingAlloc::new(alloc)?;
    let host = Hostname::new(alloc, NAME)?;
    reads_at_each_budget(&rt, alloc, &mut memory, &host)?;
    reads_at_each_budget(&rt, alloc, &mut memory, &named_ingress(&host)?)?;
    reads_at_each_budget(&rt, alloc, &mut memory, &named_address(&host)?)
}

/// Whether making the host name ran out of memory. Otherwise asserts that it is `host`.
fn is_unnamed(
    rt: &impl Abort,
    host: &Hostname,
    named: Result<Hostname, CodecError>,
    step: usize,
) -> bool {
    match named {
        Ok(named) => {
            assert_holds(rt, named == *host, step);
            false
        }
        Err(error) => {
            assert_same_for(rt, error, CodecError::Memory, step);
            true
        }
    }
}

/// Asserts that the copies that were made equal the address and its ingress, unless they ran out of
/// memory.
fn assert_copies(
    rt: &impl Abort,
    address: &Address,
    copy: Result<Address, AllocError>,
    ingress: Result<Ingress, AllocError>,
    step: usize,
) -> Result<(), AllocError> {
    if let Ok(copy) = copy {
        assert_holds(rt, copy == *address, step);
    }
    if let Ok(ingress) = ingress {
        assert_holds(rt, ingress == address.ingress()?, step);
    }
    Ok(())
}

/// Makes host names and copies at a budget that may run out of memory. Returns whether making the
/// valid name ran out of memory.
fn names_within(
    rt: &impl Abort,
    alloc: Global,
    memory: &mut FailingAlloc,
    host: &Hostname,
    address: &Address,
    step: usize,
) -> Result<bool, Fail> {
    memory.limit(alloc, step.saturating_mul(STEP))?;
    let named = Hostname::new(alloc, NAME);
    let no_name = Hostname::new(alloc, "a..b").err();
    let copy = address.clone();
    let ingress = address.ingress();
    memory.lift();
    assert_holds(rt, no_name != Some(CodecError::Memory), step);
    let refused = is_unnamed(rt, host, named, step);
    assert_copies(rt, address, copy, ingress, step)?;
    Ok(refused)
}

#[test]
fn names_and_copies_are_refused(rt: HostRuntime) -> Result<(), Fail> {
    let alloc = rt.alloc();
    let host = Hostname::new(alloc, NAME)?;
    let address = named_address(&host)?;
    let mut memory = FailingAlloc::new(alloc)?;
    let mut tally = Tally::EMPTY;
    for step in 0..STEPS {
        tally.count(names_within(&rt, alloc, &mut memory, &host, &address, step)?);
    }
    tally.is_mixed(&rt);
    Ok(())
}

/// Tests that decoding an ingress without a host name allocates nothing, and so never runs out of
/// memory.
#[test]
fn reads_sockets_with_no_memory(rt: HostRuntime) -> Result<(), Fail> {
    let alloc = rt.alloc();
    let mut memory = FailingAlloc::new(alloc)?;
    memory.limit(alloc, 0)?;
    let read = Ingress::decode(alloc, Bytes::from_static(b"\0\x04\x7f\0\0\x01\x1f\x90"));
    let faulty = Ingress::decode(alloc, Bytes::from_static(b"\x01\x01-\0P"));
    let encoded = 7u64.encode(alloc).is_ok();
    memory.lift();
    assert!(rt; !encoded);
    assert_same(&rt, read?.port(), 8080);
    assert!(rt; faulty.err() != Some(CodecError::Memory));
    Ok(())
}

/// Asserts that the message was read and the next byte is left, unless it ran out of memory. If an
/// allocation failed, all bytes are left.
fn assert_message(
    rt: &impl Abort,
    read: Result<Data, CodecError>,
    buf: &Bytes,
    spelled: &[u8],
    step: usize,
) {
    match read {
        Ok(read) => {
            assert_same_for(rt, read.message.as_slice(), b"hello".as_slice(), step);
            assert_same_for(rt, buf.as_slice(), b"!".as_slice(), step);
        }
        Err(error) => {
            assert_same_for(rt, error, CodecError::Memory, step);
            assert_same_for(rt, buf.as_slice(), spelled, step);
        }
    }
}

/// Reads and encodes messages at a budget that may run out of memory. Returns whether encoding ran
/// out of memory.
fn messages_within(
    rt: &impl Abort,
    alloc: Global,
    memory: &mut FailingAlloc,
    step: usize,
) -> Result<bool, Fail> {
    let limit = RangeCfg {
        least: 0,
        greatest: 64,
    };
    let spelled = b"\x01\x05hello!".as_slice();
    let mut buf = Bytes::copy_from_slice(alloc, spelled)?;
    let empty = Bytes::from_static(b"\x01\0");
    memory.limit(alloc, step.saturating_mul(STEP))?;
    let read = Data::read_cfg(alloc, &mut buf, &limit);
    let none = Data::decode_cfg(alloc, empty, &limit);
    let other = Data {
        channel: 1,
        message: Bytes::from_static(b"a message that is long enough to want memory"),
    };
    let encoded = other.encode(alloc);
    memory.lift();
    assert_holds(rt, none.is_ok(), step);
    assert_message(rt, read, &buf, spelled, step);
    Ok(encoded.is_err())
}

#[test]
fn messages_are_refused(rt: HostRuntime) -> Result<(), Fail> {
    let alloc = rt.alloc();
    let mut memory = FailingAlloc::new(alloc)?;
    let mut tally = Tally::EMPTY;
    for step in 0..STEPS {
        tally.count(messages_within(&rt, alloc, &mut memory, step)?);
    }
    tally.is_mixed(&rt);
    Ok(())
}

/// Tests that signing and verifying allocate nothing and never run out of memory, and nothing is
/// allocated for infos that the bytes cannot hold.
#[test]
fn judges_with_no_memory(rt: HostRuntime) -> Result<(), Fail> {
    let alloc = rt.alloc();
    let verifier = Info::verifier(
        TestKey(9),
        1,
        Duration::ZERO,
        b"rows".as_slice().to_vec(alloc)?,
    );
    let key = TestKey(1);
    let limit = RangeCfg {
        least: 0,
        greatest: usize::MAX,
    };
    let mut memory = FailingAlloc::new(alloc)?;
    memory.limit(alloc, 0)?;
    let ingress = Ingress::Socket(SocketAddr::new(IpAddr::V4([1, 2, 3, 4]), 5));
    let info = Info::sign(key, b"rows", ingress, 0, |namespace, message| {
        key.sign(namespace, message)
    });
    let judged = verifier.validate_info(Duration::ZERO, &info);
    let none = Infos::<TestKey>::decode_cfg(
        alloc,
        Bytes::from_static(b"\xff\xff\xff\xff\x0f\0"),
        &limit,
    );
    memory.lift();
    assert_same(&rt, judged, Ok(()));
    assert_same(&rt, none.err(), Some(CodecError::EndOfBuffer));
    Ok(())
}
