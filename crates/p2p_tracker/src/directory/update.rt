//! Infos, offered to the records of their peers.

ghost use Rattle.std.specs.Prelude.{◌≡◌, ◌∷◌, []};
ghost use Rattle.std.specs.Option.{option_map};
ghost use Rattle.p2p_tracker.specs.Directory.{infos_of, updated_record, ChangesAt};
ghost use Rattle.p2p_tracker.specs.Seen.{record_at};
ghost use Rattle.p2p_tracker.specs.Private.Window.{plain_sets};
ghost use Rattle.p2p_tracker.specs.Private.Counts.{AreMarked};

use crate::directory::records::Records;
use crate::kept::window::Window;
use p2p_discovery::codec::PublicKey;
use p2p_discovery::discovery::Info;

/// Updates the directory's record of each info's peer with the info, and the peer's bits if it is
/// accepted.
pub fn update_each<C: PublicKey>(
    sets: &mut Window<C>,
    records: &mut Records<C>,
    infos: Vec<Info<C>>,
    limit: usize,
)
    requires { AreMarked C.cmp limit sets.old (record_at C.cmp records.old) }
    ensures sets { plain_sets sets.new ≡ plain_sets sets.old }
    ensures records { (q : C) → record_at C.cmp records.new q ≡
        option_map (updated_record (infos_of C.cmp infos.items q)) (record_at C.cmp records.old q) }
    ensures bits { AreMarked C.cmp limit sets.new (record_at C.cmp records.new) }
{
    for info in infos {
        update_one(sets, records, info, limit);
    }
}

// Updates the directory's record of one info's peer with the info, and the peer's bits if it is
// accepted.
fn update_one<C: PublicKey>(
    sets: &mut Window<C>,
    records: &mut Records<C>,
    info: Info<C>,
    limit: usize,
)
    requires { AreMarked C.cmp limit sets.old (record_at C.cmp records.old) }
    ensures sets { plain_sets sets.new ≡ plain_sets sets.old }
    ensures records { ChangesAt C.cmp records.old records.new info.public_key
        (option_map (updated_record (info ∷ []))) }
    ensures bits { AreMarked C.cmp limit sets.new (record_at C.cmp records.new) }
{
    let peer = info.public_key;
    if let Some(known) = records.update(info, limit) {
        sets.renew(&peer, known);
    }
}
