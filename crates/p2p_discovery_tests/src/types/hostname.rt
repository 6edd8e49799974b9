//! Host names.

use crate::assertions::{assert_same, assert_same_for};
use crate::codec::is_refused;
use crate::types::fixtures::labels;
use p2p_discovery::codec::{CodecError, What};
use p2p_discovery::types::Hostname;
use std::test::Fail;

#[test]
fn names_machines(rt: HostRuntime) -> Result<(), Fail> {
    let alloc = rt.alloc();
    for text in ["a", "A-1.b", "127.0.0.1", "xn--abc.example", "example.COM"] {
        let name = Hostname::new(alloc, text)?;
        assert_same(&rt, name.as_str(), text);
        assert_same_for(&rt, &name.clone()?, &name, text);
        is_refused::<Hostname>(&rt, alloc, b"\x03ab", CodecError::EndOfBuffer)?;
    }
    let no_name = CodecError::Invalid(What::Hostname);
    for text in [
        "-a", "a-", "a..b", ".a", "a.", ".", "a b", "a_b", "\u{e9}", "a.-b.c",
    ] {
        assert_same_for(&rt, Hostname::new(alloc, text).err(), Some(no_name), text);
    }
    let cases = [
        ([63, 63, 63, 61].as_slice(), None),
        (
            [63, 63, 63, 62].as_slice(),
            Some(CodecError::InvalidLength(254)),
        ),
        ([64].as_slice(), Some(no_name)),
        ([63].as_slice(), None),
        ([].as_slice(), Some(CodecError::InvalidLength(0))),
    ];
    for (lengths, fault) in cases {
        let text = labels(alloc, lengths)?;
        assert_same_for(
            &rt,
            Hostname::new(alloc, text.as_str()).err(),
            fault,
            text.as_str(),
        );
    }
    Ok(())
}
