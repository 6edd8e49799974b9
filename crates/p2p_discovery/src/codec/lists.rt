//! Values one after the other.

ghost use Rattle.std.specs.Prelude.{◌≡◌, ◌+◌, ◌≤◌, ◌++◌, length};
ghost use Rattle.std.specs.List.{AllByRecursion};
ghost use Rattle.p2p_discovery.specs.Lists.{spellings};

use crate::codec::Write;
use bytes::BytesMut;

// Appends the encodings of these values of a list, one after the other.
pub(crate) fn write_items<T: Write>(items: &[T], buf: &mut BytesMut)
    requires can { (x : T) → T.CanSpell x }
    requires room { length (spellings T.spelling items.now) ≤ buf.old.spare }
    ensures items { buf.new.items ≡ buf.old.items ++ spellings T.spelling items.now }
    ensures spare { buf.new.spare + length (spellings T.spelling items.now) ≡ buf.old.spare }
    ensures holds { AllByRecursion T.HoldsValues items.now }
{
    for item in items {
        item.write(buf);
    }
}
