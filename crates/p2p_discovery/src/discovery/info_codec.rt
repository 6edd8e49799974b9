//! How an info is encoded.

ghost use Rattle.std.specs.Prelude.{◌≡◌, ◌+◌, ◌≤◌, length};
ghost use Rattle.p2p_discovery.specs.declared.discovery.Info.{Info};
ghost use Rattle.p2p_discovery.specs.Info.{IsInfo, IsKeyed, info_spelling, info_at};
ghost use Rattle.p2p_discovery.specs.Laws.Info.{lawful_info};

use crate::codec::{
    CodecError, EncodeSize, FixedBytes, MaxEncodeSize, PublicKey, Read, Reader, What, Write,
    write_value,
};
use crate::discovery::Info;
use crate::types::Ingress;
use bytes::BytesMut;
use std::alloc::Global;

impl<C: PublicKey> Info<C> {
    /// The maximum number of bytes of an encoded info: those of an ingress, of a timestamp, of a
    /// key and of a signature.
    pub fn max_encode_size() -> usize
        ensures value { result ≡ 261 + 10 + C.SIZE + C.Signature.SIZE }
        ensures bound { (i : Info C C.Signature) → IsInfo i
            → length (info_spelling C.spelled C.Signature.spelled i) ≤ result }
    {
        Ingress::MAX_ENCODE_SIZE + u64::MAX_ENCODE_SIZE + C::SIZE + C::Signature::SIZE
    }
}

impl<C: PublicKey> EncodeSize for Info<C> {
    ghost IsValue = { IsInfo };

    ghost CanSpell = { λ _. Unit {0} };

    ghost spelling = { info_spelling C.spelled C.Signature.spelled };

    fn encode_size(&self) -> usize
        ensures size { result ≡ length (info_spelling C.spelled C.Signature.spelled self.now) }
        ensures value { IsInfo self.now }
        ensures bound { result ≤ 261 + 10 + C.SIZE + C.Signature.SIZE }
    {
        self.ingress.encode_size() + self.timestamp.encode_size() + C::SIZE + C::Signature::SIZE
    }
}

impl<C: PublicKey> Write for Info<C> {
    ghost HoldsValues = { IsKeyed C.IsValue C.Signature.IsValue };

    fn write(&self, buf: &mut BytesMut) {
        self.ingress.write(buf);
        self.timestamp.write(buf);
        write_value(&self.public_key, buf);
        write_value(&self.signature, buf);
    }
}

impl<C: PublicKey> Read for Info<C> {
    type Cfg = ();

    ghost Admits = { λ _. IsKeyed C.IsValue C.Signature.IsValue };

    ghost reading = { λ _. info_at C.SIZE C.value C.Signature.SIZE C.Signature.value };

    #[tactic(auto, unfolding(crate::specs::Info::info_at))]
    fn read(alloc: Global, reader: &mut Reader<'_>, cfg: &()) -> Result<Info<C>, CodecError> {
        let ingress = Ingress::read(alloc, reader, cfg)?;
        let timestamp = u64::read(alloc, reader, cfg)?;
        let Some(public_key) = C::read_fixed(reader.counted(C::SIZE)?) else {
            return Err(CodecError::Invalid(What::Key));
        };
        let Some(signature) = C::Signature::read_fixed(reader.counted(C::Signature::SIZE)?) else {
            return Err(CodecError::Invalid(What::Signature));
        };
        Ok(Info {
            ingress,
            timestamp,
            public_key,
            signature,
        })
    }

    ghost lawful = { λ _. lawful_info C.fixed C.Signature.fixed };
}
