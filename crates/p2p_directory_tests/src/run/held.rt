//! The reservations that a run or a node still holds.

ghost use Rattle.p2p_directory.specs.Held.{held_of, AreHeld};

use crate::fixtures::{node_after, run_from};
use lines::{commands, info};
use p2p_directory::directory::{Directory, Metadata};
use p2p_directory::record::Status;
use p2p_directory::run::{Held, Reply, Run};
use p2p_discovery::codec::{PublicKey, TestKey};
use p2p_discovery::types::Ingress;
use std::test::Fail;

#[test]
fn takes_only_what_is_held(rt: HostRuntime) -> Result<(), Fail> {
    let alloc = rt.alloc();
    let listening = commands(alloc, &["track 0 1,2,3", "listen 3 100", "listen 1 100"])?;
    let mut left = run_from(alloc, "", listening)?;
    match left.held.take(&TestKey(2)) {
        None => {}
        Some(_reservation) => panic!(rt; "nothing was granted of 2"),
    }
    let first = left.held.first();
    let held = left.directory.status(&TestKey(3));
    let directory = left.finish();
    let released = [directory.status(&TestKey(1)), directory.status(&TestKey(3))];
    assert_eq!(rt;
        (first, held, released),
        (
            Some(TestKey(1)),
            Some(Status::Reserved),
            [Some(Status::Inert); 2]
        )
    );
    Ok(())
}

#[test]
fn closes_what_is_empty(rt: HostRuntime) -> Result<(), Fail> {
    let alloc = rt.alloc();
    let Run {
        directory: _,
        held,
        replies: _,
    } = run_from(alloc, "", Vec::new(alloc))?;
    match held.first() {
        None => held.close(),
        Some(_) => panic!(rt; "nothing was granted"),
    }
    Ok(())
}

fn is_dialled_at<C: PublicKey>(metadata: &Metadata<C>, at: &Ingress) -> bool {
    match metadata {
        Metadata::Dialer(_, ingress) => *ingress == *at,
        Metadata::Listener(_) => false,
    }
}

// In a test of held reservations, releases that of the peer if there is one, and returns whether
// the peer was dialled at this address.
fn release_dialled<C: PublicKey>(
    directory: &mut Directory<C>,
    held: &mut Held<C>,
    peer: &C,
    at: &Ingress,
) -> Option<bool>
    requires { AreHeld C.cmp directory.old (held_of C.cmp held.old) }
    ensures agree { AreHeld C.cmp directory.new (held_of C.cmp held.new) }
{
    match held.take(peer) {
        Some(reservation) => {
            let dialled = is_dialled_at(reservation.metadata(), at);
            directory.release(reservation);
            Some(dialled)
        }
        None => None,
    }
}

// One peer at a host name, and one at two sockets.
const WITH_A_NAME: &str = "boot=1@~node.example.com:8001,2@1.2.3.4:8002,2@1.2.3.4:8004";

#[test]
fn the_very_address_that_was_dialled_is_held(rt: HostRuntime) -> Result<(), Fail> {
    let alloc = rt.alloc();
    let first = info(alloc, "1@0@~node.example.com:8001")?;
    let second = info(alloc, "2@0:8004")?;
    // An info of 1 with another address comes after its dial.
    let dialling = commands(alloc, &["dial 1 100", "dial 2 100", "update 1@1000"])?;
    let Run {
        mut directory,
        mut held,
        replies,
    } = run_from(alloc, WITH_A_NAME, dialling)?;
    let dialled = [
        release_dialled(&mut directory, &mut held, &TestKey(1), &first.ingress),
        release_dialled(&mut directory, &mut held, &TestKey(2), &second.ingress),
        release_dialled(&mut directory, &mut held, &TestKey(2), &second.ingress),
    ];
    let left = Run {
        directory,
        held,
        replies,
    };
    let first = left.held.first();
    left.finish();
    assert_eq!(rt; (dialled, first), ([Some(true), Some(true), None], None));
    Ok(())
}

#[test]
fn a_node_hands_out_what_it_holds(rt: HostRuntime) -> Result<(), Fail> {
    let alloc = rt.alloc();
    let rest = commands(alloc, &["listen 1 100", "connect 1 false"])?;
    let mut node = node_after(alloc, "", &["track 0 1,2"])?;
    let mut is_done = true;
    for command in rest {
        is_done = is_done && matches!(node.step(command), Reply::Listen(true) | Reply::Connect);
    }
    let (mut directory, held) = node.parts();
    let first = held.first();
    held.release_all(&mut directory);
    let status = directory.status(&TestKey(1));
    assert_eq!(rt;
        (is_done, first, status),
        (true, Some(TestKey(1)), Some(Status::Inert))
    );
    Ok(())
}
