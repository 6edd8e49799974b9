//! Dials: who is dialled, and where, by random words; who isn't; how many are; and from when on
//! somebody is again.

use p2p_discovery::codec::TestKey;
use p2p_discovery::types::IpAddr;
use p2p_driver::actions::Action;
use p2p_driver::driver::Driver;
use p2p_driver::link::{Link, Now};
use p2p_driver::pace::Pace;
use p2p_driver_fixtures::{
    SETTINGS, Said, admitted, at, dialing, driven, greeting, know, next, next_two, pass, prove,
    tested, track,
};
use std::alloc::{AllocError, Global};
use std::test::Fail;
use std::time::Duration;

// Infos of peers 1 to 4.
const INFOS: [&'static str; 4] = ["1@1000", "2@1000", "3@1000", "4@1000"];

// A dial, or nothing if the peer is 0.
fn dialed(link: u64, peer: u64) -> Said {
    match peer {
        0 => Said::Nothing,
        _ => Said::Dialed(link, peer),
    }
}

// Dials on links 1 to 4, and nothing more. A peer of 0 is none.
fn all_dialed(peers: [u64; 4]) -> [Said; 5] {
    let [first, second, third, fourth] = peers;
    [
        dialed(1, first),
        dialed(2, second),
        dialed(3, third),
        dialed(4, fourth),
        Said::Nothing,
    ]
}

// Words, and who is dialled by them while peers 1 to 4 may be: for each word that at its place,
// modulo their number, of those that still may be.
static CASES: [([u64; 5], usize, [u64; 4]); 6] = [
    ([0, 0, 0, 0, 0], 5, [1, 2, 3, 4]),
    ([0, 0, 0, 0, 0], 4, [1, 2, 3, 4]),
    // Of 1, 2, 3, 4 at 1; of 1, 3, 4 at 2; of 1, 3 at 1; of 1 at 0.
    ([5, 5, 5, 5, 5], 4, [2, 4, 3, 1]),
    // Of 1, 2, 3, 4 at 3; of 1, 2, 3 at 0; of 2, 3 at 1; of 2 at 0.
    ([u64::MAX, u64::MAX, u64::MAX, u64::MAX, 0], 4, [4, 1, 3, 2]),
    // Of 1, 2, 3, 4 at 2; of 1, 2, 4 at 1.
    ([2, 7, 0, 0, 0], 2, [3, 2, 0, 0]),
    ([0, 0, 0, 0, 0], 0, [0, 0, 0, 0]),
];

// What the tested driver says at 1 s with the first of these words.
fn says(
    alloc: Global,
    driver: &mut Driver<TestKey>,
    words: &[u64; 5],
    count: usize,
) -> Result<[Said; 5], Fail> {
    know(alloc, driver, "track 0 1,2,3,4", &INFOS)?;
    Ok(pass(driver, &words[..count.min(5)], 1_000)?)
}

#[test]
fn each_word_says_who_is_dialled(rt: HostRuntime) -> Result<(), Fail> {
    let alloc = rt.alloc();
    for (words, count, peers) in &CASES {
        let found = tested(alloc, dialing(alloc), |driver| {
            says(alloc, driver, words, *count)
        })??;
        assert_eq!(rt; found, all_dialed(*peers));
    }
    Ok(())
}

// Where the tested driver has somebody dialled next: at which address, if it is one, and port.
type Place = Option<(Option<IpAddr>, u16)>;

fn place(driver: &mut Driver<TestKey>) -> Place {
    match driver.next_action() {
        Some(
            Action::Dial {
                link: _,
                peer: _,
                ingress,
            },
        ) => Some((ingress.ip(), ingress.port())),
        _ => None,
    }
}

// Where peers 1 to 4 are dialled: three have an info, and the last is a bootstrapper.
fn places(alloc: Global, driver: &mut Driver<TestKey>) -> Result<[Place; 4], Fail> {
    let words = ["1@1000", "2@1000@5.6.7.8:99", "3@1000@~node.example.com:8"];
    know(alloc, driver, "track 0 1,2,3,4", &words)?;
    driver.timeout(&[0, 0, 0, 0], at(1_000))?;
    let first = [place(driver), place(driver)];
    let second = [place(driver), place(driver)];
    let ([one, two], [three, four]) = (first, second);
    Ok([one, two, three, four])
}

#[test]
fn a_peer_is_dialled_where_it_is(rt: HostRuntime) -> Result<(), Fail> {
    let alloc = rt.alloc();
    let settings = "cooldown=60 boot=4@8.8.4.4:7000";
    let found = driven(alloc, settings, dialing(alloc), |driver| {
        places(alloc, driver)
    })??;
    assert_eq!(rt;
        found,
        [
            Some((Some(IpAddr::V4([1, 2, 3, 4])), 8_001)),
            Some((Some(IpAddr::V4([5, 6, 7, 8])), 99)),
            Some((None, 8)),
            Some((Some(IpAddr::V4([8, 8, 4, 4])), 7_000)),
        ]
    );
    Ok(())
}

// What is said by the tested driver, whose set has its own key, peer 1, and 2 without an info, 3,
// which is blocked, 5 at a private address, 6 at a name, and 7, which has a link; beside them is 4.
fn others(alloc: Global, driver: &mut Driver<TestKey>) -> Result<[Said; 5], Fail> {
    let words = [
        "1@1000",
        "3@1000",
        "4@1000",
        "5@1000@10.0.0.1:8005",
        "6@1000@~node.example.com:8006",
        "7@1000",
    ];
    know(alloc, driver, "track 0 1,2,3,5,6,7,9 / 4", &words)?;
    prove(driver, 1, 7, 500)?;
    driver.block(&TestKey(3), at(600))?;
    next(driver);
    Ok(pass(driver, &[0, 0, 0, 0], 1_000)?)
}

#[test]
fn who_may_not_be_dialled_is_not(rt: HostRuntime) -> Result<(), Fail> {
    let alloc = rt.alloc();
    let settings = "cooldown=60 private=false dns=false";
    let found = driven(alloc, settings, dialing(alloc), |driver| {
        others(alloc, driver)
    })??;
    let silent = Said::Nothing;
    assert_eq!(rt; found, [Said::Dialed(2, 1), silent, silent, silent, silent]);
    Ok(())
}

// Whether something is due of the tested driver at a time.
fn is_due(driver: &Driver<TestKey>, millis: u64) -> bool {
    match driver.next_timeout() {
        Some(time) => time <= Duration::from_millis(millis),
        None => false,
    }
}

// The first two of the actions that the tested driver says with four words of 0, and whether
// something is still due then.
fn fill(driver: &mut Driver<TestKey>, millis: u64) -> Result<([Said; 2], bool), AllocError> {
    driver.timeout(&[0, 0, 0, 0], at(millis))?;
    Ok((next_two(driver), is_due(driver, millis)))
}

// What the tested driver says while two dials have a place; once one of them failed, and whether
// something is due before; once the stream of the other is proved; and without a change.
type Dials = ([([Said; 2], bool); 4], [bool; 2]);

fn dials(alloc: Global, driver: &mut Driver<TestKey>) -> Result<Dials, Fail> {
    know(alloc, driver, "track 0 1,2,3,4", &INFOS)?;
    let first = fill(driver, 1_000)?;
    driver.ended(Link(1), at(2_000));
    let ended = is_due(driver, 2_000);
    let second = fill(driver, 2_000)?;
    driver.proved(Link(2), TestKey(2), 0, at(3_000))?;
    next(driver);
    let proved = is_due(driver, 3_000);
    let third = fill(driver, 3_000)?;
    Ok((
        [first, second, third, fill(driver, 3_001)?],
        [ended, proved],
    ))
}

const SILENT: [Said; 2] = [Said::Nothing, Said::Nothing];

// One dial, and nothing more.
fn one(link: u64, peer: u64) -> [Said; 2] {
    [Said::Dialed(link, peer), Said::Nothing]
}

// The recommended settings, but for so many links, which may be inbound, outbound ones among them,
// and dials under way.
fn narrow(alloc: Global, links: usize, outbound: usize, dials: usize) -> Pace {
    let mut pace = dialing(alloc);
    pace.links = links;
    pace.inbound = links;
    pace.outbound = outbound;
    pace.dials = dials;
    pace
}

#[test]
fn so_many_dials_are_under_way(rt: HostRuntime) -> Result<(), Fail> {
    let alloc = rt.alloc();
    let pace = narrow(alloc, 4, 4, 2);
    let (found, due) = driven(alloc, SETTINGS, pace, |driver| dials(alloc, driver))??;
    let two = [Said::Dialed(1, 1), Said::Dialed(2, 2)];
    assert_eq!(rt;
        found,
        [
            (two, false),
            (one(3, 3), false),
            (one(4, 4), false),
            (SILENT, false),
        ]
    );
    assert_eq!(rt; due, [true, true]);
    Ok(())
}

// What the tested driver says while three links may be outbound, of which two dials: at first; once
// two streams are proved; once that of the third is, too; once the first is closed; and once its
// stream ended.
fn outbound(alloc: Global, driver: &mut Driver<TestKey>) -> Result<[([Said; 2], bool); 5], Fail> {
    know(alloc, driver, "track 0 1,2,3,4", &INFOS)?;
    let first = fill(driver, 1_000)?;
    driver.proved(Link(1), TestKey(1), 0, at(2_000))?;
    driver.proved(Link(2), TestKey(2), 0, at(2_000))?;
    next_two(driver);
    let second = fill(driver, 2_000)?;
    driver.proved(Link(3), TestKey(3), 0, at(3_000))?;
    next(driver);
    let third = fill(driver, 3_000)?;
    driver.part(&TestKey(1), at(4_000));
    next(driver);
    let fourth = fill(driver, 4_000)?;
    driver.ended(Link(1), at(5_000));
    Ok([first, second, third, fourth, fill(driver, 5_000)?])
}

#[test]
fn dials_count_as_outbound(rt: HostRuntime) -> Result<(), Fail> {
    let alloc = rt.alloc();
    let pace = narrow(alloc, 4, 3, 2);
    let found = driven(alloc, SETTINGS, pace, |driver| outbound(alloc, driver))??;
    let two = [Said::Dialed(1, 1), Said::Dialed(2, 2)];
    assert_eq!(rt;
        found,
        [
            (two, false),
            (one(3, 3), false),
            (SILENT, false),
            (SILENT, false),
            (one(4, 4), false),
        ]
    );
    Ok(())
}

// What the tested driver, which has three places for links, says while peers 1 and 2 came in; once
// the first of these is closed; and once its stream ended.
fn links(alloc: Global, driver: &mut Driver<TestKey>) -> Result<[([Said; 2], bool); 3], Fail> {
    know(alloc, driver, "track 0 1,2,3,4", &INFOS)?;
    prove(driver, 1, 1, 500)?;
    prove(driver, 2, 2, 500)?;
    next_two(driver);
    let first = fill(driver, 1_000)?;
    driver.part(&TestKey(1), at(2_000));
    next(driver);
    let second = fill(driver, 2_000)?;
    driver.ended(Link(1), at(3_000));
    Ok([first, second, fill(driver, 3_000)?])
}

#[test]
fn dials_count_as_links(rt: HostRuntime) -> Result<(), Fail> {
    let alloc = rt.alloc();
    let pace = narrow(alloc, 3, 3, 3);
    let found = driven(alloc, SETTINGS, pace, |driver| links(alloc, driver))??;
    let third = (one(3, 3), false);
    assert_eq!(rt; found, [third, (SILENT, false), (one(4, 4), false)]);
    Ok(())
}

// The times of a call, with a steady one in nanoseconds.
fn at_nanos(nanos: u64) -> Now {
    Now {
        steady: Duration::from_nanos(nanos),
        wall: Duration::ZERO,
    }
}

// When the tested driver wakes once peer 1 was dialled with a word at 1 s, greeted, and left; and
// what it says a nanosecond before so many, and then.
type Again = (Option<Duration>, [[Said; 2]; 2]);

fn again(
    alloc: Global,
    driver: &mut Driver<TestKey>,
    word: u64,
    nanos: u64,
) -> Result<Again, Fail> {
    know(alloc, driver, "track 0 1", &["1@1000"])?;
    driver.timeout(&[word], at(1_000))?;
    driver.proved(Link(1), TestKey(1), 0, at(1_000))?;
    let _ = admitted(driver, Link(1), &greeting(alloc, "1@1000")?, at(1_000));
    let _ = driver.judged(Link(1), &[true], at(1_000));
    driver.ended(Link(1), at(1_000));
    for _ in 0..8u32 {
        next(driver);
    }
    driver.timeout(&[0], at(1_000))?;
    let wake = driver.next_timeout();
    driver.timeout(&[0], at_nanos(nanos.saturating_sub(1)))?;
    let before = next_two(driver);
    driver.timeout(&[0], at_nanos(nanos))?;
    Ok((wake, [before, next_two(driver)]))
}

// Words, and when a peer may be dialled again that was with it at 1 s, in nanoseconds: with a
// cooldown of 60 s that is so long later, and the word modulo 60,000,000,001 ns.
const AGAIN: [(u64, u64); 5] = [
    (0, 61_000_000_000),
    (5, 61_000_000_005),
    (60_000_000_000, 121_000_000_000),
    (60_000_000_001, 61_000_000_000),
    (u64::MAX, 94_402_105_881),
];

// With a cooldown of 5 ns, whose half is 2, the jitter is the word modulo 5.
const SHORT: [(u64, u64); 3] = [
    (4, 1_000_000_009),
    (5, 1_000_000_005),
    (u64::MAX, 1_000_000_005),
];

#[test]
fn a_word_is_the_jitter_of_a_dial(rt: HostRuntime) -> Result<(), Fail> {
    let alloc = rt.alloc();
    for (word, nanos) in AGAIN {
        let found = tested(alloc, dialing(alloc), |driver| {
            again(alloc, driver, word, nanos)
        })??;
        let wake = Some(Duration::from_nanos(nanos));
        assert_eq!(rt; found, (wake, [SILENT, one(2, 1)]));
    }
    Ok(())
}

#[test]
fn a_jitter_is_at_most_twice_half_a_cooldown(rt: HostRuntime) -> Result<(), Fail> {
    let alloc = rt.alloc();
    for (word, nanos) in SHORT {
        let settings = "cooldown=0.000000005";
        let mut pace = dialing(alloc);
        pace.handshake = Duration::from_nanos(1);
        let found = driven(alloc, settings, pace, move |driver| {
            again(alloc, driver, word, nanos)
        })??;
        let wake = Some(Duration::from_nanos(nanos));
        assert_eq!(rt; found, (wake, [SILENT, one(2, 1)]));
    }
    Ok(())
}

// When the tested driver wakes: while it has no set, and one of which it knows no info, once it
// looked; whether something is due once it has an info, and without a word; and when it wakes once
// the peer is dialled.
type Wakes = ([Option<Duration>; 2], [bool; 2], Option<Duration>);

fn wakes(alloc: Global, driver: &mut Driver<TestKey>) -> Result<Wakes, Fail> {
    driver.timeout(&[0, 0], at(0))?;
    let first = driver.next_timeout();
    track(alloc, driver, "track 0 1", 0)?;
    driver.timeout(&[0, 0], at(0))?;
    let second = driver.next_timeout();
    know(alloc, driver, "track 1 1", &["1@1000"])?;
    let known = is_due(driver, 0);
    driver.timeout(&[], at(1_000))?;
    let still = is_due(driver, 1_000);
    driver.timeout(&[0, 0], at(1_000))?;
    Ok(([first, second], [known, still], driver.next_timeout()))
}

#[test]
fn a_driver_wakes_when_somebody_may_be_dialled(rt: HostRuntime) -> Result<(), Fail> {
    let alloc = rt.alloc();
    let found = driven(alloc, SETTINGS, dialing(alloc), |driver| {
        wakes(alloc, driver)
    })??;
    // The proof is due 5 s after the dial.
    let wake = Some(Duration::from_secs(6));
    assert_eq!(rt; found, ([None, None], [true, true], wake));
    Ok(())
}

// When the tested driver wakes once it knows peer 1 and has a word, if no dial has a place.
fn placeless(alloc: Global, driver: &mut Driver<TestKey>) -> Result<Option<Duration>, Fail> {
    know(alloc, driver, "track 0 1", &["1@1000"])?;
    driver.timeout(&[0], at(1_000))?;
    Ok(driver.next_timeout())
}

#[test]
fn a_driver_that_dials_nobody_sleeps(rt: HostRuntime) -> Result<(), Fail> {
    let alloc = rt.alloc();
    for (links, outbound, dials) in [(4usize, 4usize, 0usize), (4, 0, 0), (0, 0, 0)] {
        let pace = narrow(alloc, links, outbound, dials);
        let found = driven(alloc, SETTINGS, pace, |driver| placeless(alloc, driver))??;
        assert_eq!(rt; found, None);
    }
    Ok(())
}

// When the tested driver wakes while peer 1 is blocked since 1 s, and what it says a millisecond
// before that, and then.
fn unblocked(
    alloc: Global,
    driver: &mut Driver<TestKey>,
) -> Result<(Option<Duration>, [[Said; 2]; 2]), Fail> {
    know(alloc, driver, "track 0 1", &["1@1000"])?;
    driver.block(&TestKey(1), at(1_000))?;
    driver.timeout(&[0], at(1_000))?;
    let wake = driver.next_timeout();
    driver.timeout(&[0], at(60_999))?;
    let before = next_two(driver);
    driver.timeout(&[0], at(61_000))?;
    Ok((wake, [before, next_two(driver)]))
}

#[test]
fn a_peer_is_dialled_when_its_block_ends(rt: HostRuntime) -> Result<(), Fail> {
    let alloc = rt.alloc();
    let found = driven(alloc, SETTINGS, dialing(alloc), |driver| {
        unblocked(alloc, driver)
    })??;
    let wake = Some(Duration::from_secs(61));
    assert_eq!(rt; found, (wake, [SILENT, one(1, 1)]));
    Ok(())
}

// Whether something is due once one of two peers is dialled with a single word; what is said with
// one more; and with a third, a cooldown after the application parted from both, and the dials
// ended.
fn rest(alloc: Global, driver: &mut Driver<TestKey>) -> Result<(bool, [[Said; 2]; 2]), Fail> {
    know(alloc, driver, "track 0 1,2", &["1@1000", "2@1000"])?;
    driver.timeout(&[0], at(1_000))?;
    next(driver);
    let due = is_due(driver, 1_000);
    driver.timeout(&[0], at(2_000))?;
    let second = next_two(driver);
    driver.part(&TestKey(1), at(3_000));
    driver.part(&TestKey(2), at(3_000));
    next_two(driver);
    driver.ended(Link(1), at(3_000));
    driver.ended(Link(2), at(3_000));
    driver.timeout(&[1], at(62_000))?;
    Ok((due, [second, next_two(driver)]))
}

#[test]
fn what_lacks_a_word_stays_due(rt: HostRuntime) -> Result<(), Fail> {
    let alloc = rt.alloc();
    let found = driven(alloc, SETTINGS, dialing(alloc), |driver| {
        rest(alloc, driver)
    })??;
    assert_eq!(rt; found, (true, [one(2, 2), one(3, 2)]));
    Ok(())
}
