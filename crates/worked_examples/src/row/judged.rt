//! Worked examples of infos that are verified.

use crate::row::{Stop, print};
use lines::{NAMESPACE, info};
use p2p_discovery::codec::TestKey;
use p2p_discovery::discovery::{Error, Info, InfoVerifier};
use std::alloc::{AllocError, Global};
use std::fmt;
use std::io::Write;
use std::time::Duration;

/// That infos are valid, or why they are rejected.
#[derive(Drop)]
struct Judged(Result<(), Error>);

impl fmt::Display for Judged {
    fn fmt<W: fmt::Write>(&self, f: &mut fmt::Formatter<W>) -> fmt::Result {
        match self.0 {
            Ok(()) => f.write_str("ok"),
            Err(error) => write!(f, "{error:?}"),
        }
    }
}

// The verifier by which the infos of a row are judged, of peer 9, which accepts so many at a time,
// up to half a minute ahead.
fn verifier(alloc: Global, greatest: usize) -> Result<InfoVerifier<TestKey>, AllocError> {
    let namespace = NAMESPACE.to_vec(alloc)?;
    let bound = Duration::from_secs(30);
    Ok(Info::verifier(TestKey(9), greatest, bound, namespace))
}

/// Prints the row of how infos are judged: which are valid at time 0, and why others are rejected.
pub fn judged_infos<W: Write>(alloc: Global, out: &mut W) -> Result<(), Stop> {
    let now = Duration::ZERO;
    let two = [info(alloc, "1@0")?, info(alloc, "2@0")?];
    let of_one = verifier(alloc, 1)?;
    print(out, &Judged(of_one.validate(now, &two)))?;
    print(out, &Judged(of_one.validate(now, &[])))?;
    for word in ["1@30000", "1@30001", "9@99999!other", "1@0!other"] {
        let one = [info(alloc, word)?];
        print(out, &Judged(of_one.validate(now, &one)))?;
    }
    let of_none = verifier(alloc, 0)?;
    print(out, &Judged(of_none.validate_info(now, &two[0])))?;
    print(out, &Judged(of_none.validate(now, &two[..1])))
}
