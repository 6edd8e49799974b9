//! Encoding and decoding of values, and verification of infos.

ghost use Rattle.p2p_discovery.specs.Payload.{CanSpell};

use crate::keys::{Key32, keys};
use crate::made::{NAMESPACE, infos_of, ingress};
use crate::stop::Stop;
use crate::times::Times;
use bytes::Bytes;
use p2p_discovery::codec::{Read, Write as _};
use p2p_discovery::discovery::{BitVec, Info, InfoVerifier, Infos, Payload, PayloadConfig};
use p2p_discovery::sets::BitMap;
use p2p_discovery::types::{Hostname, Ingress};
use std::alloc::Global;
use std::time::{Duration, Instant};

/// Whether values are encoded or decoded.
#[derive(Clone, Copy)]
pub(crate) enum Way {
    /// Values are encoded.
    Encode,
    /// Values are decoded.
    Decode,
}

// As many addresses, by number or by name, whose encoding for the wire is timed.
fn addresses(alloc: Global, count: usize, are_names: bool) -> Result<Vec<Ingress>, Stop> {
    let mut all = Vec::with_capacity(alloc, count)?;
    for place in 0..count {
        if are_names {
            match Hostname::new(alloc, "node-17.validators.example.com") {
                Ok(host) => all.push(Ingress::Dns { host, port: 8000 })?,
                Err(_) => return Err(Stop::Memory),
            }
        } else {
            all.push(ingress((place % 256) as u8))?;
        }
    }
    Ok(all)
}

fn encode_addresses(alloc: Global, all: &[Ingress]) -> Result<Vec<Bytes>, Stop> {
    let mut frames = Vec::with_capacity(alloc, all.len())?;
    for ingress in all {
        frames.push(ingress.encode(alloc)?)?;
    }
    Ok(frames)
}

fn encode_infos(alloc: Global, all: &[Info<Key32>]) -> Result<Vec<Bytes>, Stop> {
    let mut frames = Vec::with_capacity(alloc, all.len())?;
    for info in all {
        frames.push(info.encode(alloc)?)?;
    }
    Ok(frames)
}

fn decode_each<T: Read<Cfg = ()> + Drop>(alloc: Global, frames: &[Bytes]) -> Result<Vec<T>, Stop> {
    let mut all = Vec::with_capacity(alloc, frames.len())?;
    for frame in frames {
        match T::decode(alloc, frame.clone()?) {
            Ok(value) => all.push(value)?,
            Err(_) => return Err(Stop::Memory),
        }
    }
    Ok(all)
}

// Times the decoding of these values from the wire, each by itself.
fn decodings<T: Read<Cfg = ()> + Drop>(
    rt: &HostRuntime,
    frames: &[Bytes],
    samples: usize,
) -> Result<Times, Stop> {
    let mut times = Times::new(rt.alloc());
    for _ in 0..samples {
        let start = Instant::now(rt)?;
        let read: Vec<T> = decode_each(rt.alloc(), frames)?;
        times.add(start.elapsed(rt)?, read.len())?;
    }
    Ok(times)
}

// Times the encoding of values for the wire, each by itself.
fn encodings<F: Fn() -> Result<Vec<Bytes>, Stop>>(
    rt: &HostRuntime,
    samples: usize,
    encode: F,
) -> Result<Times, Stop>
    requires { F.IsAlwaysCallable encode }
{
    let mut times = Times::new(rt.alloc());
    for _ in 0..samples {
        let start = Instant::now(rt)?;
        let written = encode()?;
        times.add(start.elapsed(rt)?, written.len())?;
    }
    Ok(times)
}

/// Times the encoding of addresses for the wire, or the decoding, each by itself.
pub(crate) fn ingresses(
    rt: &HostRuntime,
    count: usize,
    samples: usize,
    are_names: bool,
    way: Way,
) -> Result<Times, Stop> {
    let alloc = rt.alloc();
    let all = addresses(alloc, count, are_names)?;
    match way {
        Way::Encode => encodings(rt, samples, || encode_addresses(alloc, &all)),
        Way::Decode => decodings::<Ingress>(rt, &encode_addresses(alloc, &all)?, samples),
    }
}

/// Times the encoding of infos for the wire, or the decoding, each by itself.
pub(crate) fn infos(
    rt: &HostRuntime,
    count: usize,
    samples: usize,
    way: Way,
) -> Result<Times, Stop> {
    let alloc = rt.alloc();
    let infos = infos_of(alloc, &keys(alloc, count)?, 1000)?;
    match way {
        Way::Encode => encodings(rt, samples, || encode_infos(alloc, &infos)),
        Way::Decode => decodings::<Info<Key32>>(rt, &encode_infos(alloc, &infos)?, samples),
    }
}

// Limits that no payload here comes near.
const WIDE: PayloadConfig = PayloadConfig {
    max_bit_vec: 1_000_000,
    max_peers: 1_000_000,
    max_data_length: 1_000_000,
};

// Times the encoding of one payload for the wire.
fn payload_encodings(
    rt: &HostRuntime,
    payload: &Payload<Key32>,
    samples: usize,
) -> Result<Times, Stop>
    requires { CanSpell payload.now }
{
    let mut times = Times::new(rt.alloc());
    for _ in 0..samples {
        let start = Instant::now(rt)?;
        let written = payload.encode(rt.alloc())?;
        times.add(start.elapsed(rt)?, written.len())?;
    }
    Ok(times)
}

// Times the decoding of one payload from the wire.
fn payload_decodings(rt: &HostRuntime, frame: &Bytes, samples: usize) -> Result<Times, Stop> {
    let mut times = Times::new(rt.alloc());
    for _ in 0..samples {
        let start = Instant::now(rt)?;
        let read = Payload::<Key32>::decode_cfg(rt.alloc(), frame.clone()?, &WIDE);
        times.add(start.elapsed(rt)?, usize::from(read.is_ok()))?;
    }
    Ok(times)
}

// Times the encoding of one payload for the wire, or the decoding.
fn payload(
    rt: &HostRuntime,
    payload: Payload<Key32>,
    samples: usize,
    way: Way,
) -> Result<Times, Stop>
    requires { CanSpell payload }
{
    match way {
        Way::Encode => payload_encodings(rt, &payload, samples),
        Way::Decode => payload_decodings(rt, &payload.encode(rt.alloc())?, samples),
    }
}

/// Times the encoding of a payload of infos for the wire, or the decoding.
pub(crate) fn peers(
    rt: &HostRuntime,
    count: usize,
    samples: usize,
    way: Way,
) -> Result<Times, Stop> {
    let alloc = rt.alloc();
    let infos = infos_of(alloc, &keys(alloc, count)?, 1000)?;
    if infos.len() >= 4_294_967_296 {
        return Err(Stop::Words);
    }
    payload(rt, Payload::Peers(Infos::from_vec(infos)), samples, way)
}

/// Times the encoding of a payload of bits for the wire, or the decoding.
pub(crate) fn bits(
    rt: &HostRuntime,
    count: usize,
    samples: usize,
    way: Way,
) -> Result<Times, Stop> {
    let bits = BitMap::zeroes(rt.alloc(), count as u64)?;
    payload(rt, Payload::BitVec(BitVec { index: 3, bits }), samples, way)
}

// Times the verification of these infos, which came over the wire.
fn verifications(
    rt: &HostRuntime,
    verifier: &InfoVerifier<Key32>,
    infos: &[Info<Key32>],
    samples: usize,
) -> Result<Times, Stop> {
    let now = Duration::from_secs(100);
    let mut times = Times::new(rt.alloc());
    for _ in 0..samples {
        let start = Instant::now(rt)?;
        let is_valid = verifier.validate(now, infos).is_ok();
        times.add(start.elapsed(rt)?, if is_valid { infos.len() } else { 0 })?;
    }
    Ok(times)
}

/// Times the verification of a list of infos that came over the wire.
pub(crate) fn judgements(rt: &HostRuntime, count: usize, samples: usize) -> Result<Times, Stop> {
    let alloc = rt.alloc();
    let infos = infos_of(alloc, &keys(alloc, count)?, 1000)?;
    let namespace = NAMESPACE.to_vec(alloc)?;
    let bound = Duration::from_secs(30);
    let verifier = Info::<Key32>::verifier(Key32::numbered(9), count, bound, namespace);
    verifications(rt, &verifier, &infos, samples)
}
