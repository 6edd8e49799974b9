//! Payloads, infos, and the verifier of infos.

ghost use Rattle.std.specs.Prelude.{◌<◌};

use crate::assertions::{assert_same, assert_same_for};
use crate::codec::array_keys::{ArrayKey, ArraySignature};
use crate::codec::small_keys::Small;
use bytes::Bytes;
use p2p_discovery::codec::{
    CodecError, EncodeSize, PublicKey, RangeCfg, Read, TestKey, TestSignature, What, Write,
};
use p2p_discovery::data::Data;
use p2p_discovery::discovery::{
    BitVec, Error, Info, InfoVerifier, Infos, Payload, PayloadConfig, max_gossip_size,
};
use p2p_discovery::sets::BitMap;
use p2p_discovery::types::{Hostname, Ingress, IpAddr, SocketAddr};
use std::alloc::{AllocError, Global};
use std::process::Abort;
use std::test::Fail;
use std::time::Duration;

const ROWS: &[u8] = b"rows";

fn socket(port: u16) -> Ingress {
    Ingress::Socket(SocketAddr::new(IpAddr::V4([1, 2, 3, 4]), port))
}

/// The info of a key for tests of discovery, at 1.2.3.4 and port 8000 plus the key, signed with the
/// key in a namespace.
fn info_in(namespace: &[u8], key: u16, timestamp: u64) -> Info<TestKey> {
    let public_key = TestKey(key as u64);
    Info::sign(
        public_key,
        namespace,
        socket(key.saturating_add(8000)),
        timestamp,
        |namespace, message| public_key.sign(namespace, message),
    )
}

#[test]
fn a_copy_of_an_info_is_equal(rt: HostRuntime) -> Result<(), Fail> {
    let alloc = rt.alloc();
    let host = Hostname::new(alloc, "peer.example")?;
    let info = Info {
        ingress: Ingress::Dns { host, port: 80 },
        timestamp: 1000,
        public_key: TestKey(7),
        signature: TestSignature(5),
    };
    let copy = info.clone()?;
    assert!(rt; copy.ingress == info.ingress);
    assert_same(&rt, (copy.timestamp, copy.public_key), (1000, TestKey(7)));
    assert_same(&rt, copy.signature, TestSignature(5));
    Ok(())
}

#[test]
fn spells_infos(rt: HostRuntime) -> Result<(), Fail> {
    let alloc = rt.alloc();
    let info = info_in(ROWS, 1, 1000);
    let bytes = info.encode(alloc)?;
    assert_same(&rt, info.encode_size(), 26);
    assert_same(&rt, bytes.len(), 26);
    assert!(rt;
        bytes.as_slice().starts_with(b"\0\x04\x01\x02\x03\x04\x1f\x41\xe8\x07\0\0\0\0\0\0\0\x01")
    );
    let read: Info<TestKey> = Info::decode(alloc, bytes)?;
    assert!(rt; read.ingress == info.ingress);
    assert_same(&rt, (read.timestamp, read.public_key), (1000, TestKey(1)));
    assert_same(&rt, read.signature, info.signature);
    assert_same(&rt, Info::<TestKey>::max_encode_size(), 287);
    assert_same(&rt, Info::<ArrayKey>::max_encode_size(), 367);
    Ok(())
}

#[test]
fn reads_lists_of_infos_under_a_limit(rt: HostRuntime) -> Result<(), Fail> {
    let alloc = rt.alloc();
    let mut bytes = [3u8].as_slice().to_vec(alloc)?;
    for key in [1, 2, 3] {
        bytes.extend_from_slice(info_in(ROWS, key, 0).encode(alloc)?.as_slice())?;
    }
    let cases = [
        (3, 3, None),
        (0, 2, Some(CodecError::InvalidLength(3))),
        (4, usize::MAX, Some(CodecError::InvalidLength(3))),
    ];
    for (least, greatest, fault) in cases {
        let limit = RangeCfg { least, greatest };
        let bytes = Bytes::copy_from_slice(alloc, &bytes)?;
        match Infos::<TestKey>::decode_cfg(alloc, bytes, &limit) {
            Ok(read) => {
                assert_same_for(&rt, fault, None, (least, greatest));
                let ports = read.as_slice().iter().map(|info| info.ingress.port());
                assert_same(
                    &rt,
                    ports.collect::<Vec<u16>>(alloc)?.as_slice(),
                    [8001, 8002, 8003].as_slice(),
                );
                assert_same(&rt, read.into_vec().len(), 3);
            }
            Err(error) => assert_same_for(&rt, Some(error), fault, (least, greatest)),
        }
    }
    Ok(())
}

/// Bytes from 128 on encode neither a key nor a signature.
static SPELLED_KEYS: [(&'static [u8], Option<CodecError>); 4] = [
    (b"\0\x04\x01\x02\x03\x04\x1f\x41\0\x7f\0", None),
    (
        b"\0\x04\x01\x02\x03\x04\x1f\x41\0\x80\x80",
        Some(CodecError::Invalid(What::Key)),
    ),
    (
        b"\0\x04\x01\x02\x03\x04\x1f\x41\0\0\x80",
        Some(CodecError::Invalid(What::Signature)),
    ),
    (
        b"\0\x04\x01\x02\x03\x04\x1f\x41\0\0",
        Some(CodecError::EndOfBuffer),
    ),
];

#[test]
fn refuses_bytes_that_spell_no_key(rt: HostRuntime) -> Result<(), Fail> {
    for (bytes, fault) in SPELLED_KEYS {
        let mut buf = Bytes::copy_from_slice(rt.alloc(), bytes)?;
        let read = Info::<Small>::read_cfg(rt.alloc(), &mut buf, &());
        assert_same_for(&rt, read.err(), fault, bytes);
    }
    let info = Info::sign(Small::new(5), b"", socket(1), 2, |_, _| Small::new(5));
    assert!(rt; info.verify(b""));
    assert_same(
        &rt,
        info.encode(rt.alloc())?.as_slice(),
        b"\0\x04\x01\x02\x03\x04\0\x01\x02\x05\x05".as_slice(),
    );
    Ok(())
}

/// Tests discovery with a key of 32 bytes and a signature of 64, as a user provides them.
#[test]
fn carries_keys_that_are_arrays(rt: HostRuntime) -> Result<(), Fail> {
    let alloc = rt.alloc();
    let key = ArrayKey([7; 32]);
    let info = Info::sign(key, ROWS, socket(80), 5, |_, _| ArraySignature([7; 64]));
    assert!(rt; info.verify(ROWS));
    let bytes = info.encode(alloc)?;
    assert_same(&rt, bytes.len(), 105);
    let read: Info<ArrayKey> = Info::decode(alloc, bytes)?;
    assert_same(
        &rt,
        (read.public_key, read.signature),
        (key, ArraySignature([7; 64])),
    );
    let other = Info::sign(
        ArrayKey([8; 32]),
        ROWS,
        socket(80),
        5,
        |_, _| ArraySignature([7; 64]),
    );
    assert!(rt; !other.verify(ROWS));
    assert!(rt; key < ArrayKey([8; 32]));
    Ok(())
}

/// A long name in an info of the tests of discovery, seventy labels of one letter.
fn long_name(alloc: Global) -> Result<String, AllocError> {
    let mut text = String::new(alloc);
    for _ in 0..69 {
        text.push_str("a.")?;
    }
    text.push('a')?;
    Ok(text)
}

/// The message that is signed for an info of the tests of discovery, of a name, port 80 and
/// timestamp 2.
fn named_message(alloc: Global, text: &str) -> Result<Vec<u8>, AllocError> {
    let mut message = b"\x01\x8b\x01".as_slice().to_vec(alloc)?;
    message.extend_from_slice(text.as_bytes())?;
    message.extend_from_slice(b"\0\x50\0\0\0\0\0\0\0\x02")?;
    Ok(message)
}

fn signs_a_long_name(rt: &impl Abort, alloc: Global) -> Result<(), Fail> {
    let key = TestKey(4);
    let text = long_name(alloc)?;
    let message = named_message(alloc, text.as_str())?;
    let host = Hostname::new(alloc, text.as_str())?;
    let named = Info::sign(
        key,
        b"n",
        Ingress::Dns { host, port: 80 },
        2,
        |namespace, message| { key.sign(namespace, message) },
    );
    assert_same(rt, named.signature, key.sign(b"n", &message));
    assert!(rt; named.verify(b"n"));
    Ok(())
}

#[test]
fn signs_the_ingress_and_the_timestamp(rt: HostRuntime) -> Result<(), Fail> {
    let alloc = rt.alloc();
    let home = Ingress::Socket(SocketAddr::new(IpAddr::V4([127, 0, 0, 1]), 8080));
    let signed = b"\0\x04\x7f\0\0\x01\x1f\x90\0\0\0\0\0\0\x03\xe8".as_slice();
    let key = TestKey(4);
    let info = Info::sign(
        key,
        ROWS,
        home,
        1000,
        |namespace, message| key.sign(namespace, message),
    );
    assert_same(&rt, info.signature, key.sign(ROWS, signed));
    assert_same(&rt, (info.public_key, info.timestamp), (key, 1000));
    assert!(rt; info.verify(ROWS));
    assert!(rt; !info.verify(b"other"));
    signs_a_long_name(&rt, alloc)
}

/// Asserts the result of verifying an info of discovery at the epoch, alone and as a list of one.
fn assert_judged(
    rt: &impl Abort,
    verifier: &InfoVerifier<TestKey>,
    info: Info<TestKey>,
    want: Result<(), Error>,
) {
    let one = [info];
    assert_same(rt, verifier.validate_info(Duration::ZERO, &one[0]), want);
    assert_same(rt, verifier.validate(Duration::ZERO, &one), want);
}

/// Asserts that the verifier of discovery accepts the timestamp `u64::MAX` at `Duration::MAX`, and
/// not at the epoch.
fn judges_the_greatest_timestamp(rt: &impl Abort, verifier: &InfoVerifier<TestKey>) {
    let last = info_in(ROWS, 1, u64::MAX);
    assert_same(rt, verifier.validate_info(Duration::MAX, &last), Ok(()));
    assert_same(
        rt,
        verifier.validate_info(Duration::ZERO, &last),
        Err(Error::SynchronyBound),
    );
}

/// Tests lists for a verifier of discovery that accepts one info at most, and for one that accepts
/// none.
fn judges_lists(rt: &impl Abort, verifier: &InfoVerifier<TestKey>, none: &InfoVerifier<TestKey>) {
    let two = [info_in(ROWS, 1, 0), info_in(ROWS, 2, 0)];
    assert_same(
        rt,
        verifier.validate(Duration::ZERO, &two),
        Err(Error::TooManyPeers(2)),
    );
    assert_same(rt, verifier.validate(Duration::ZERO, &[]), Ok(()));
    assert_same(rt, none.validate_info(Duration::ZERO, &two[0]), Ok(()));
    assert_same(
        rt,
        none.validate(Duration::ZERO, &two[..1]),
        Err(Error::TooManyPeers(1)),
    );
}

#[test]
fn judges_infos_in_order(rt: HostRuntime) -> Result<(), Fail> {
    let alloc = rt.alloc();
    let verifier = Info::verifier(TestKey(9), 1, Duration::from_secs(30), ROWS.to_vec(alloc)?);
    let none = Info::verifier(TestKey(9), 0, Duration::from_secs(30), ROWS.to_vec(alloc)?);
    let other = b"other".as_slice();
    for (namespace, key, timestamp, want) in [
        (ROWS, 1, 30_000, Ok(())),
        (ROWS, 1, 30_001, Err(Error::SynchronyBound)),
        (other, 9, 99_999, Err(Error::ReceivedSelf)),
        (other, 1, 30_001, Err(Error::SynchronyBound)),
        (other, 1, 0, Err(Error::InvalidSignature)),
    ] {
        assert_judged(&rt, &verifier, info_in(namespace, key, timestamp), want);
    }
    judges_the_greatest_timestamp(&rt, &verifier);
    judges_lists(&rt, &verifier, &none);
    Ok(())
}

#[test]
fn tells_why_infos_are_refused(rt: HostRuntime) -> Result<(), Fail> {
    let cases = [
        (Error::TooManyPeers(7), "too many peers: 7"),
        (Error::ReceivedSelf, "received self"),
        (Error::InvalidSignature, "invalid signature"),
        (Error::SynchronyBound, "synchrony bound violated"),
    ];
    for (error, text) in cases {
        let told = format!(in rt.alloc(); "{error}")?;
        assert_same(&rt, told.as_str(), text);
    }
    Ok(())
}

fn spells_seventy_one_bits(rt: &impl Abort, alloc: Global) -> Result<(), Fail> {
    let bits = BitVec {
        index: 1234,
        bits: BitMap::ones(alloc, 71)?,
    };
    let bytes = bits.encode(alloc)?;
    assert_same(
        rt,
        bytes.as_slice(),
        b"\xd2\x09\x47\xff\xff\xff\xff\xff\xff\xff\xff\x7f".as_slice(),
    );
    assert_same(rt, bits.encode_size(), 12);
    let read = BitVec::decode_cfg(alloc, bytes, &71)?;
    assert_same(rt, read.index, 1234);
    assert!(rt; read == bits);
    let other = BitVec {
        index: 1235,
        bits: bits.bits.clone()?,
    };
    assert!(rt; read != other && other.bits == bits.bits);
    Ok(())
}

static REFUSED_BITS: [(&'static [u8], u64, CodecError); 5] = [
    (b"\x05\x09\xff\x01", 8, CodecError::InvalidLength(9)),
    (b"\x05\x09", 8, CodecError::InvalidLength(9)),
    (b"\x05\x09\xff", 9, CodecError::EndOfBuffer),
    (b"\x05\x09\xff\x03", 9, CodecError::Invalid(What::Padding)),
    (b"\x05\x80\0", 9, CodecError::InvalidVarint(10)),
];

#[test]
fn spells_bits(rt: HostRuntime) -> Result<(), Fail> {
    let alloc = rt.alloc();
    spells_seventy_one_bits(&rt, alloc)?;
    for (bytes, limit, fault) in REFUSED_BITS {
        let mut buf = Bytes::copy_from_slice(alloc, bytes)?;
        assert_same_for(
            &rt,
            BitVec::read_cfg(alloc, &mut buf, &limit).err(),
            Some(fault),
            bytes,
        );
        assert_same_for(&rt, buf.as_slice(), bytes, "after a refusal");
    }
    Ok(())
}

const LIMITS: PayloadConfig = PayloadConfig {
    max_bit_vec: 9,
    max_peers: 2,
    max_data_length: 5,
};

/// What the tests of discovery compare of a payload: its variant's position, its channel, timestamp
/// or index, and how many bytes, infos or bits it holds.
fn parts(payload: &Payload<TestKey>) -> (usize, u64, u64) {
    match payload {
        Payload::Data(data) => (0, data.channel, data.message.len() as u64),
        Payload::Greeting(info) => (1, info.timestamp, 1),
        Payload::BitVec(bits) => (2, bits.index, bits.bits.len()),
        Payload::Peers(infos) => (3, 0, infos.as_slice().len() as u64),
    }
}

fn spells_data(rt: &impl Abort, alloc: Global) -> Result<(), Fail> {
    let data = Payload::<TestKey>::Data(Data {
        channel: 1,
        message: Bytes::from_static(b"hello"),
    });
    assert_same(
        rt,
        data.encode(alloc)?.as_slice(),
        b"\0\x01\x05hello".as_slice(),
    );
    Ok(())
}

fn spells_nine_bits(rt: &impl Abort, alloc: Global) -> Result<(), Fail> {
    let bits = Payload::<TestKey>::BitVec(BitVec {
        index: 5,
        bits: BitMap::ones(alloc, 9)?,
    });
    assert_same(
        rt,
        bits.encode(alloc)?.as_slice(),
        b"\x02\x05\x09\xff\x01".as_slice(),
    );
    Ok(())
}

static SPELLED_PAYLOADS: [(&'static [u8], (usize, u64, u64)); 4] = [
    (b"\0\x01\x05hello", (0, 1, 5)),
    (b"\x02\x05\x09\xff\x01", (2, 5, 9)),
    (b"\x02\0\0", (2, 0, 0)),
    (b"\x03\0", (3, 0, 0)),
];

#[test]
fn spells_payloads(rt: HostRuntime) -> Result<(), Fail> {
    let alloc = rt.alloc();
    spells_data(&rt, alloc)?;
    spells_nine_bits(&rt, alloc)?;
    let greeting = Payload::Greeting(info_in(ROWS, 1, 1000));
    assert_same(&rt, greeting.encode_size(), 27);
    for (bytes, want) in SPELLED_PAYLOADS {
        let frame = Bytes::copy_from_slice(alloc, bytes)?;
        let read = Payload::<TestKey>::decode_cfg(alloc, frame, &LIMITS)?;
        assert_same_for(&rt, parts(&read), want, bytes);
    }
    Ok(())
}

static REFUSED_PAYLOADS: [(&'static [u8], CodecError); 8] = [
    (b"", CodecError::EndOfBuffer),
    (b"\x04\0\x01", CodecError::InvalidEnum(4)),
    (b"\0\x01\x06hello!", CodecError::InvalidLength(6)),
    (b"\x02\x05\x0a\xff\x01", CodecError::InvalidLength(10)),
    (b"\x02\x05\x09\xff\x03", CodecError::Invalid(What::Padding)),
    (b"\x03\x03", CodecError::InvalidLength(3)),
    (b"\x03\x01\0\x05", CodecError::InvalidEnum(5)),
    (b"\x01\x01\0", CodecError::InvalidLength(0)),
];

#[test]
fn refuses_payloads(rt: HostRuntime) -> Result<(), Fail> {
    for (bytes, fault) in REFUSED_PAYLOADS {
        let mut buf = Bytes::copy_from_slice(rt.alloc(), bytes)?;
        let read = Payload::<TestKey>::read_cfg(rt.alloc(), &mut buf, &LIMITS);
        assert_same_for(&rt, read.err(), Some(fault), bytes);
        assert_same_for(&rt, buf.as_slice(), bytes, "after a refusal");
    }
    Ok(())
}

#[test]
fn bounds_gossip(rt: HostRuntime) -> Result<(), Fail> {
    assert_same(&rt, max_gossip_size::<TestKey>(0, 0), 288);
    assert_same(&rt, max_gossip_size::<TestKey>(0, 1), 293);
    assert_same(&rt, max_gossip_size::<TestKey>(1000, 32), 9190);
    assert_same(&rt, max_gossip_size::<TestKey>(100_000, 0), 12_514);
    Ok(())
}
