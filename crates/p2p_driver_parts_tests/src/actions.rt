//! Actions that wait: in which order they are taken, and how many frames and dials are among them.

use bytes::Bytes;
use p2p_discovery::types::{Ingress, IpAddr, SocketAddr};
use p2p_driver::actions::{Action, Actions, Event, Why};
use p2p_driver::link::Link;
use std::alloc::{AllocError, Global};
use std::process::Abort;
use std::test::Fail;

// The link of an action, or 0 if there is no action or none of a link.
fn link_of(action: Option<Action<u64>>) -> u64 {
    match action {
        Some(
            Action::Dial {
                link,
                peer: _,
                ingress: _,
            },
        ) => link.0,
        Some(Action::Close { link, why: _ }) => link.0,
        Some(Action::Told(Event::Up(link, _))) => link.0,
        _ => 0,
    }
}

// Whether room for all that can be counted is refused. Then how many of three actions wait once one
// isn't needed, and of which links they are, in their order, with one more that comes meanwhile.
fn taken(alloc: Global) -> Result<(bool, usize, [u64; 4]), AllocError> {
    let mut actions = Actions::<u64>::new(alloc);
    let refused = actions.reserve(usize::MAX).is_err();
    actions.reserve(3)?;
    actions.push(Action::Close {
        link: Link(1),
        why: Why::Slow,
    });
    actions.push(Action::Told(Event::Up(Link(2), 5)));
    actions.give_back(1);
    let count = actions.len();
    let first = link_of(actions.pop());
    actions.reserve(1)?;
    actions.push(Action::Told(Event::Up(Link(3), 6)));
    let rest = [
        first,
        link_of(actions.pop()),
        link_of(actions.pop()),
        link_of(actions.pop()),
    ];
    Ok((refused, count, rest))
}

#[test]
fn actions_are_taken_in_their_order(rt: HostRuntime) -> Result<(), Fail> {
    let found = taken(rt.alloc())?;
    assert!(rt; found == (true, 2, [1, 2, 3, 0]));
    Ok(())
}

// A frame that is sent on a link.
fn frame(link: u64) -> Action<u64> {
    Action::Send {
        link: Link(link),
        frame: Bytes::new(),
    }
}

// How many frames wait on links 1, 2 and 3.
fn waiting(actions: &Actions<u64>) -> [usize; 3] {
    [
        actions.sends_on(Link(1)),
        actions.sends_on(Link(2)),
        actions.sends_on(Link(3)),
    ]
}

// At first; with frames on links 1, 2 and 1 and other actions of these links; and once the first
// and the second of these actions, a frame and a close, are taken.
fn frames(alloc: Global) -> Result<[[usize; 3]; 4], AllocError> {
    let mut actions = Actions::<u64>::new(alloc);
    let none = waiting(&actions);
    actions.reserve(6)?;
    actions.push(frame(1));
    actions.push(Action::Close {
        link: Link(1),
        why: Why::Slow,
    });
    actions.push(frame(2));
    actions.push(Action::Told(Event::Up(Link(2), 5)));
    actions.push(frame(1));
    actions.push(Action::Told(Event::Down(Link(3), 6, None)));
    let all = waiting(&actions);
    actions.pop();
    let first = waiting(&actions);
    actions.pop();
    Ok([none, all, first, waiting(&actions)])
}

#[test]
fn frames_that_wait_are_counted_by_link(rt: HostRuntime) -> Result<(), Fail> {
    let found = frames(rt.alloc())?;
    assert!(rt; found == [[0, 0, 0], [2, 1, 0], [1, 1, 0], [1, 1, 0]]);
    Ok(())
}

// A dial of peer 5 at 1.2.3.4:8005, on a link.
fn dial(link: u64) -> Action<u64> {
    let address = SocketAddr::new(IpAddr::V4([1, 2, 3, 4]), 8_005);
    Action::Dial {
        link: Link(link),
        peer: 5,
        ingress: Ingress::Socket(address),
    }
}

// How many actions and frames wait on link 1, and actions on link 2, once both are dialled, and a
// frame is sent on the first; and which link is taken first, and which of the actions wait then.
type Dials = ((usize, usize, usize), u64, [usize; 2]);

fn dials(alloc: Global) -> Result<Dials, AllocError> {
    let mut actions = Actions::<u64>::new(alloc);
    actions.reserve(3)?;
    actions.push(dial(1));
    actions.push(dial(2));
    actions.push(frame(1));
    let all = (
        actions.count_of(Link(1)),
        actions.sends_on(Link(1)),
        actions.count_of(Link(2)),
    );
    let first = link_of(actions.pop());
    let rest = [actions.count_of(Link(1)), actions.count_of(Link(2))];
    Ok((all, first, rest))
}

#[test]
fn a_dial_is_of_its_link_and_no_frame(rt: HostRuntime) -> Result<(), Fail> {
    let found = dials(rt.alloc())?;
    assert!(rt; found == ((2, 1, 1), 1, [1, 1]));
    Ok(())
}
