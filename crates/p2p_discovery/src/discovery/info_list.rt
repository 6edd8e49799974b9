//! Lists of infos, and how they are encoded.

ghost use Rattle.std.specs.Prelude.{◌≡◌, ℕ, ◌+◌, ◌<◌, ◌≤◌, ◌^◌, ◌*◌, ◌/◌, List, [], ◌∷◌, ◌++◌};
ghost use Rattle.std.specs.Prelude.{length, min, Ok, OnOk, OnErr, IfOk, IfErr};
ghost use Rattle.std.specs.Prelude.{vec_len, vec_capacity};
ghost use Rattle.std.specs.List.{AllByRecursion};
ghost use Rattle.p2p_discovery.specs.declared.discovery.Info.{Info};
ghost use Rattle.p2p_discovery.specs.Reading.{Fails, GivesAs};
ghost use Rattle.p2p_discovery.specs.Lists.{items_at, spellings};
ghost use Rattle.p2p_discovery.specs.Info.{IsInfo, IsKeyed, info_spelling, infos_spelling};
ghost use Rattle.p2p_discovery.specs.Info.{AreAllowed, info_at, infos_at};
ghost use Rattle.p2p_discovery.specs.Laws.Info.{lawful_infos};

use crate::codec::{
    CodecError, EncodeSize, FixedBytes, PublicKey, RangeCfg, Read, Reader, What, Write,
    read_length, write_items,
};
use crate::discovery::Info;
use crate::types::Ingress;
use bytes::BytesMut;
use std::alloc::{AllocError, Global};
use std::marker::Model;

/// Infos, one after the other. A contract sees the list of them.
///
/// It is a vector of them: [`Infos::from_vec`] and [`Infos::into_vec`] don't allocate.
#[derive(Drop)]
pub struct Infos<C: PublicKey> {
    items: Vec<Info<C>>,
}

impl<C: PublicKey> Model for Infos<C> {
    ghost use Rattle.std.specs.Prelude.{List};
    ghost use Rattle.p2p_discovery.specs.declared.discovery.Info.{Info};

    ghost Value = { List (Info C C.Signature) };

    ghost view = { λ infos. infos.items.items };
}

impl<C: PublicKey> Infos<C> {
    /// The list of these infos, in their order.
    pub fn from_vec(items: Vec<Info<C>>) -> Infos<C>
        ensures { result ≡ items.items }
    {
        Infos { items }
    }

    /// The vector of the infos of the list, in their order.
    pub fn into_vec(self) -> Vec<Info<C>>
        ensures { result.items ≡ self }
    {
        self.items
    }

    /// The infos of the list, in their order.
    pub fn as_slice(&self) -> &[Info<C>]
        ensures { result.now ≡ self.now }
    {
        &self.items
    }
}

impl<C: PublicKey> EncodeSize for Infos<C> {
    ghost IsValue = { AllByRecursion IsInfo };

    ghost CanSpell = { λ infos. length infos < 2 ^ 32 };

    ghost spelling = { infos_spelling C.spelled C.Signature.spelled };

    fn encode_size(&self) -> usize
        requires { length self.now < 2 ^ 32 }
        ensures size { result ≡ length (infos_spelling C.spelled C.Signature.spelled self.now) }
        ensures value { AllByRecursion IsInfo self.now }
        ensures bound { result < 2 ^ 63 }
    {
        (self.items.len() as u32).encode_size() + infos_size(&self.items)
    }
}

// The number of bytes of the infos of a list, one after the other.
fn infos_size<C: PublicKey>(infos: &[Info<C>]) -> usize
    requires { length infos.now < 2 ^ 32 }
    ensures size { result
        ≡ length (spellings (info_spelling C.spelled C.Signature.spelled) infos.now) }
    ensures value { AllByRecursion IsInfo infos.now }
    ensures bound { result ≤ length infos.now * 2 ^ 18 }
{
    let mut size = 0;
    for info in infos {
        size += info.encode_size();
    }
    size
}

impl<C: PublicKey> Write for Infos<C> {
    ghost HoldsValues = { AllByRecursion (IsKeyed C.IsValue C.Signature.IsValue) };

    fn write(&self, buf: &mut BytesMut) {
        (self.items.len() as u32).write(buf);
        write_items(&self.items, buf);
    }
}

impl<C: PublicKey> Read for Infos<C> {
    type Cfg = RangeCfg;

    ghost Admits = { AreAllowed C.IsValue C.Signature.IsValue };

    ghost reading = { infos_at C.SIZE C.value C.Signature.SIZE C.Signature.value };

    #[tactic(auto, unfolding(crate::specs::Lists::list_at))]
    fn read(
        alloc: Global,
        reader: &mut Reader<'_>,
        limit: &RangeCfg,
    ) -> Result<Infos<C>, CodecError> {
        let count = read_length(alloc, reader, limit)?;
        let items = read_infos(alloc, reader, count, 6 + C::SIZE + C::Signature::SIZE)?;
        Ok(Infos { items })
    }

    ghost lawful = { lawful_infos C.fixed C.Signature.fixed };
}

// Reads a list of so many infos, each of which has at least `least` bytes.
fn read_infos<C: PublicKey>(
    alloc: Global,
    reader: &mut Reader<'_>,
    count: usize,
    least: usize,
) -> Result<Vec<Info<C>>, CodecError>
    requires some { 0 < least }
    requires least { (info : Info C C.Signature) → IsInfo info
        → least ≤ length (info_spelling C.spelled C.Signature.spelled info) }
    ensures exact { GivesAs (λ v. v.items) result reader.new (items_at least
        (info_at C.SIZE C.value C.Signature.SIZE C.Signature.value) count reader.old) }
    ensures room { IfOk result (λ v. vec_capacity v * least ≤ length reader.old) }
{
    let mut infos = reserve_infos(alloc, count, reader.rest().len(), least)?;
    for _ in 0..count {
        push_info(alloc, reader, &mut infos)?;
    }
    Ok(infos)
}

// A vector with capacity for a list of so many infos, but for no more than so many bytes can hold,
// if each info has at least `least` bytes.
fn reserve_infos<C: PublicKey>(
    alloc: Global,
    count: usize,
    bytes: usize,
    least: usize,
) -> Result<Vec<Info<C>>, AllocError>
    requires some { 0 < least }
    ensures room { IfOk result (λ v. vec_capacity v * least ≤ bytes) }
    ensures exact { IfOk result (λ v. vec_capacity v ≡ min count (bytes / least)) }
    ensures empty { IfOk result (λ v. (v.items ≡ []) × (vec_len v ≡ 0)) }
    ensures err { OnErr result (0 < min count (bytes / least)) }
{
    Vec::with_capacity(alloc, count.min(bytes / least))
}

// Reads an info onto the end of a list, which has room for it. It is put there part by part, and
// not moved.
#[tactic(auto, unfolding(crate::specs::Info::info_at))]
fn push_info<C: PublicKey>(
    alloc: Global,
    reader: &mut Reader<'_>,
    infos: &mut Vec<Info<C>>,
) -> Result<(), CodecError>
    requires room { (info : Info C C.Signature) (rest : List ℕ)
        → (info_at C.SIZE C.value C.Signature.SIZE C.Signature.value reader.old).outcome
        ≡ Ok (info, rest)
        → vec_len infos.old < vec_capacity infos.old }
    ensures pushed { OnOk result ((info : Info C C.Signature)
        × ((info_at C.SIZE C.value C.Signature.SIZE C.Signature.value reader.old).outcome
        ≡ Ok (info, reader.new))
        × (infos.new.items ≡ infos.old.items ++ info ∷ [])) }
    ensures len { OnOk result (vec_len infos.new ≡ vec_len infos.old + 1) }
    ensures capacity { OnOk result (vec_capacity infos.new ≡ vec_capacity infos.old) }
    ensures fault { IfErr result
        (λ e. Fails e (info_at C.SIZE C.value C.Signature.SIZE C.Signature.value reader.old)) }
{
    let ingress = Ingress::read(alloc, reader, &())?;
    let timestamp = u64::read(alloc, reader, &())?;
    let Some(public_key) = C::read_fixed(reader.counted(C::SIZE)?) else {
        return Err(CodecError::Invalid(What::Key));
    };
    let Some(signature) = C::Signature::read_fixed(reader.counted(C::Signature::SIZE)?) else {
        return Err(CodecError::Invalid(What::Signature));
    };
    infos.push_reserved(Info {
        ingress,
        timestamp,
        public_key,
        signature,
    });
    Ok(())
}
