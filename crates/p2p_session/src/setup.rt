//! What a node is created from, decoded from what a session is given.

ghost use Rattle.std.specs.Prelude.{◌≡◌, ◌≢◌, ◌<◌, ◌⊎◌, ◌++◌, ℕ, List, true, length, Ok, Err};
ghost use Rattle.std.specs.Prelude.{IfOk, OnOk, IfErr};
ghost use Rattle.std.specs.List.{AllByRecursion};
ghost use Rattle.p2p_discovery.specs.declared.codec.error.CodecError.TheVariants as fault;
ghost use Rattle.p2p_discovery.specs.Info.{info_spelling};
ghost use Rattle.p2p_discovery.specs.Ingress.{IsIngress, ingress_spelling};
ghost use Rattle.p2p_discovery.specs.Reading.{Leaves};
ghost use Rattle.p2p_discovery.specs.declared.types.ingress.Ingress.{Ingress};
ghost use Rattle.std.specs.Duration.{as_nanos};
ghost use Rattle.std.specs.Int.NonZero.{non_zero_usize_get};
ghost use Rattle.p2p_session.specs.Answers.{};
ghost use Rattle.p2p_session.specs.Given.{bootstrapper_spelling, bootstrappers_spelling};
ghost use Rattle.p2p_session.specs.Given.{IsBootstrapper, SpellBootstrappers, IsInfoOfKeys};
ghost use Rattle.p2p_session.specs.Given.{SpellInfo, are_settings, numbers_at, moment_at};
ghost use Rattle.p2p_session.specs.Given.{IsSetupRead};
ghost use Rattle.p2p_session.specs.declared.refusal.Refusal.TheVariants.{Memory, BadInfo};

use crate::given::{are_bytes, copied, key_in, moment};
use crate::refusal::Refusal;
use crate::scheme::Keys;
use p2p_directory::directory::Config;
use p2p_directory::node::Setup;
use p2p_discovery::codec::{CodecError, PublicKey, Read, Reader};
use p2p_discovery::discovery::{Info, PayloadConfig};
use p2p_discovery::types::Ingress;
use std::alloc::Global;
use std::num::NonZeroUsize;

/// The numbers of a setup. A time is its seconds and nanoseconds.
#[derive(Clone, Copy)]
pub struct Numbers {
    pub allow_private_ips: bool,
    pub allow_dns: bool,
    pub max_sets: u64,
    pub dial_fail_limit: u64,
    pub cooldown: (u64, u32),
    pub block: (u64, u32),
    pub max_bit_vec: u64,
    pub max_peers: u64,
    pub max_data_length: u64,
    pub peer_gossip_max_count: u64,
    pub bound: (u64, u32),
}

/// The setup that a session is given for its node. Refused are, first, settings that no node may
/// have, then durations, then bytes that encode no bootstrappers or no info.
pub fn setup<C: PublicKey>(
    alloc: Global,
    numbers: &Numbers,
    namespace: &[u8],
    bootstrappers: &[u8],
    myself: &[u8],
) -> Result<Setup<C>, Refusal>
    ensures read { IsSetupRead ⟦<C as Keys>⟧.scheme numbers.now namespace.now bootstrappers.now
        myself.now result }
    ensures settings { OnOk result (are_settings numbers.now ≡ true) }
    ensures some { OnOk result (0 < length myself.now) }
{
    let cfg = config(numbers)?;
    let synchrony_bound = moment(numbers.bound.0, numbers.bound.1)?;
    let bootstrappers = bootstrappers_of(alloc, bootstrappers)?;
    let myself = info(alloc, myself)?;
    Ok(Setup {
        bootstrappers,
        myself,
        cfg,
        payload: PayloadConfig {
            max_bit_vec: numbers.max_bit_vec,
            max_peers: numbers.max_peers as usize,
            max_data_length: numbers.max_data_length as usize,
        },
        peer_gossip_max_count: numbers.peer_gossip_max_count as usize,
        synchrony_bound,
        namespace: namespace.to_vec(alloc)?,
    })
}

// The part of a session's setup that says how a directory behaves.
fn config(numbers: &Numbers) -> Result<Config, Refusal>
    ensures settings { OnOk result (are_settings numbers.now ≡ true) }
    ensures private_ips { IfOk result (λ c.
        c.allow_private_ips ≡ numbers.now.allow_private_ips) }
    ensures dns { IfOk result (λ c. c.allow_dns ≡ numbers.now.allow_dns) }
    ensures sets { IfOk result (λ c. non_zero_usize_get c.max_sets ≡ numbers.now.max_sets) }
    ensures fails { IfOk result (λ c. c.dial_fail_limit ≡ numbers.now.dial_fail_limit) }
    ensures cooldown { IfOk result (λ c. moment_at numbers.now.cooldown.0 numbers.now.cooldown.1
        ≡ Ok (as_nanos c.peer_connection_cooldown)) }
    ensures block { IfOk result (λ c. moment_at numbers.now.block.0 numbers.now.block.1
        ≡ Ok (as_nanos c.block_duration)) }
    ensures refused { IfErr result (λ why. numbers_at numbers.now ≡ Err why) }
{
    let Some(max_sets) = NonZeroUsize::new(numbers.max_sets as usize) else {
        return Err(Refusal::BadSetting);
    };
    if numbers.max_sets == u64::MAX || numbers.max_bit_vec >= 1 << 32 {
        return Err(Refusal::BadSetting);
    }
    Ok(Config {
        allow_private_ips: numbers.allow_private_ips,
        allow_dns: numbers.allow_dns,
        max_sets,
        dial_fail_limit: numbers.dial_fail_limit as usize,
        peer_connection_cooldown: moment(numbers.cooldown.0, numbers.cooldown.1)?,
        block_duration: moment(numbers.block.0, numbers.block.1)?,
    })
}

// The info of a session's setup that the bytes encode.
fn info<C: PublicKey>(alloc: Global, bytes: &[u8]) -> Result<Info<C>, Refusal>
    ensures is_info { IfOk result (IsInfoOfKeys ⟦<C as Keys>⟧.scheme) }
    ensures spelled { IfOk result (λ i. info_spelling C.spelled C.Signature.spelled i ≡ bytes.now) }
    ensures refused { IfErr result (λ why. ((why ≡ Memory) × (0 < length bytes.now))
        ⊎ ((why ≡ BadInfo) × (¬ SpellInfo ⟦<C as Keys>⟧.scheme bytes.now))) }
    ensures some { OnOk result (0 < length bytes.now) }
{
    let bytes = copied(alloc, bytes)?;
    match Info::decode(alloc, bytes) {
        Ok(info) => Ok(info),
        Err(error) => Err(undecoded(error)),
    }
}

// Why bytes of a session's setup aren't decoded.
fn undecoded(error: CodecError) -> Refusal
    ensures { ((result ≡ Memory) × (error ≡ fault.Memory))
        ⊎ ((result ≡ BadInfo) × (error ≢ fault.Memory)) }
{
    match error {
        CodecError::Memory => Refusal::Memory,
        _ => Refusal::BadInfo,
    }
}

// The bootstrappers of a session's setup that the bytes encode: a key and an ingress each, one
// after the other.
fn bootstrappers_of<C: PublicKey>(alloc: Global, bytes: &[u8]) -> Result<Vec<(C, Ingress)>, Refusal>
    ensures are { IfOk result (λ bs. AllByRecursion (IsBootstrapper ⟦<C as Keys>⟧.scheme)
        bs.items) }
    ensures spelled { IfOk result (λ bs. bootstrappers_spelling ⟦<C as Keys>⟧.scheme bs.items ≡
        bytes.now) }
    ensures refused { IfErr result (λ why. ((why ≡ Memory) × (0 < length bytes.now))
        ⊎ ((why ≡ BadInfo) × (¬ SpellBootstrappers ⟦<C as Keys>⟧.scheme bytes.now))) }
{
    let bytes = copied(alloc, bytes)?;
    let mut left = Reader::new(&bytes);
    let mut read = Vec::new(alloc);
    while !left.is_empty() {
        let one = bootstrapper(alloc, &mut left)?;
        read.push(one)?;
    }
    Ok(read)
}

// A bootstrapper of a session's setup, a key and an ingress.
fn bootstrapper<C: PublicKey>(alloc: Global, left: &mut Reader<'_>) -> Result<(C, Ingress), Refusal>
    ensures is { IfOk result (IsBootstrapper ⟦<C as Keys>⟧.scheme) }
    ensures spelled { IfOk result (λ b. left.old ≡ bootstrapper_spelling ⟦<C as Keys>⟧.scheme b ++
        left.new) }
    ensures shorter { OnOk result (length left.new < length left.old) }
    ensures rest { OnOk result ((b : C × Ingress) (rest : List ℕ) → IsBootstrapper
        ⟦<C as Keys>⟧.scheme b → left.old ≡ bootstrapper_spelling ⟦<C as Keys>⟧.scheme b ++ rest →
        left.new ≡ rest) }
    ensures refused { IfErr result (λ why. (why ≡ Memory) ⊎ ((why ≡ BadInfo) × ((b : C × Ingress)
        (rest : List ℕ) → IsBootstrapper ⟦<C as Keys>⟧.scheme b → ¬ (left.old ≡
        bootstrapper_spelling ⟦<C as Keys>⟧.scheme b ++ rest)))) }
{
    let key = front_key(left)?;
    match front_ingress(alloc, left) {
        Ok(ingress) => Ok((key, ingress)),
        Err(error) => Err(undecoded(error)),
    }
}

// The key with which the bytes of a session's setup begin. They then begin after it.
fn front_key<C: PublicKey>(left: &mut Reader<'_>) -> Result<C, Refusal>
    ensures is { IfOk result C.IsValue }
    ensures spelled { IfOk result (λ key. left.old ≡ C.spelled key ++ left.new) }
    ensures refused { IfErr result (λ why. (why ≡ BadInfo) × ((key : C) (rest : List ℕ) →
        C.IsValue key → ¬ (left.old ≡ C.spelled key ++ rest))) }
{
    let Some(key) = key_in(left.rest(), 0) else {
        return Err(Refusal::BadInfo);
    };
    match left.counted(C::SIZE) {
        Ok(_bytes) => Ok(key),
        Err(_) => unreachable!(),
    }
}

// The ingress with which the bytes of a session's setup begin. They then begin after it.
// Always inlined: a call would return the ingress in memory, from where it is copied.
#[inline(always)]
fn front_ingress(alloc: Global, left: &mut Reader<'_>) -> Result<Ingress, CodecError>
    ensures found { IfOk result (λ i. IsIngress i × (left.old ≡ ingress_spelling i ++ left.new)) }
    ensures only { (i : Ingress) (rest : List ℕ) → IsIngress i →
        left.old ≡ ingress_spelling i ++ rest → Leaves result left.new i rest }
{
    // For the proof: what is left are bytes.
    are_bytes(left.rest());
    Ingress::read(alloc, left, &())
}
