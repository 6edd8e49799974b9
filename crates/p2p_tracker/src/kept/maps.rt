//! Setting a pair of a map, and dropping what was there.

ghost use Rattle.std.specs.Prelude.{◌≡◌, OnErr, OnOk, Some, if◌then◌else◌};
ghost use Rattle.std.specs.BTreeMap.{is_at, get};

use p2p_discovery::codec::PublicKey;
use std::alloc::AllocError;
use std::collections::BTreeMap;

/// Drops a value that was in a map. Its drop, which branches on the contents, is here and not in
/// the caller.
pub fn drop_value<T: Drop>(_value: T) {}

/// Sets the value of the key in a map, replacing any that it had. If an allocation fails, nothing
/// has changed.
pub fn put<C: PublicKey, V: Drop>(
    map: &mut BTreeMap<C, V>,
    key: C,
    value: V,
) -> Result<(), AllocError>
    ensures ok { OnOk result ((q : C) → get C.cmp map.new q ≡
        (if is_at (C.cmp key) q then Some value else get C.cmp map.old q)) }
    ensures err { OnErr result (map.new.entries ≡ map.old.entries) }
{
    match map.insert(key, value) {
        Ok(before) => {
            drop_value(before);
            Ok(())
        }
        Err(refused) => {
            drop_value(refused);
            Err(AllocError)
        }
    }
}
