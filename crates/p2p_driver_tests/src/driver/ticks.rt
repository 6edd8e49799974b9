//! Further questions of a link: when its peer is asked again, who isn't, and when a driver wakes.

use p2p_discovery::codec::TestKey;
use p2p_driver::actions::{Event, Why};
use p2p_driver::admission::{Admission, Heard, Misjudged};
use p2p_driver::driver::Driver;
use p2p_driver::link::{Link, Now};
use p2p_driver_fixtures::{
    SETTINGS, Said, admitted, at, driven, greet, greeting, list, next, next_two, open, pace, prove,
    tested, track,
};
use std::alloc::{AllocError, Global};
use std::test::Fail;
use std::time::Duration;

// Tells the tested driver a steady time in nanoseconds. Returns what it says.
fn told(driver: &mut Driver<TestKey>, nanos: u64) -> Result<[Said; 2], AllocError> {
    driver.timeout(
        &[],
        Now {
            steady: Duration::from_nanos(nanos),
            wall: Duration::ZERO,
        },
    )?;
    Ok(next_two(driver))
}

// What the tested driver says when a link is asked, and nothing more.
fn sent(link: u64) -> [Said; 2] {
    [Said::Sent(link), Said::Nothing]
}

const SILENT: [Said; 2] = [Said::Nothing, Said::Nothing];

// What the tested driver says a nanosecond before a tick has passed since peer 1 greeted at 2 s,
// then, and once more then; and so of the next tick, if it is told the time 8 s late.
type Ticks = ([[Said; 2]; 3], [[Said; 2]; 4]);

fn ticks(alloc: Global, driver: &mut Driver<TestKey>) -> Result<Ticks, Fail> {
    open(alloc, driver, "track 0 1,2")?;
    let first = [
        told(driver, 31_999_999_999)?,
        told(driver, 32_000_000_000)?,
        told(driver, 32_000_000_000)?,
    ];
    let second = [
        told(driver, 61_999_999_999)?,
        told(driver, 70_000_000_000)?,
        told(driver, 99_999_999_999)?,
        told(driver, 100_000_000_000)?,
    ];
    Ok((first, second))
}

#[test]
fn a_peer_is_asked_again_a_tick_later(rt: HostRuntime) -> Result<(), Fail> {
    let alloc = rt.alloc();
    let found = driven(alloc, SETTINGS, pace(alloc), |driver| ticks(alloc, driver))??;
    let (first, second) = found;
    assert_eq!(rt; first, [SILENT, sent(1), SILENT]);
    assert_eq!(rt; second, [SILENT, sent(1), SILENT, sent(1)]);
    Ok(())
}

// What the tested driver says a nanosecond before a tick of a millisecond has passed since peer 1
// greeted at 2 s, and then.
fn short(alloc: Global, driver: &mut Driver<TestKey>) -> Result<[[Said; 2]; 2], Fail> {
    open(alloc, driver, "track 0 1,2")?;
    Ok([told(driver, 2_000_999_999)?, told(driver, 2_001_000_000)?])
}

#[test]
fn a_tick_is_as_long_as_the_settings_say(rt: HostRuntime) -> Result<(), Fail> {
    let alloc = rt.alloc();
    let mut pace = pace(alloc);
    pace.tick = Duration::from_millis(1);
    let found = driven(alloc, SETTINGS, pace, |driver| short(alloc, driver))??;
    assert_eq!(rt; found, [SILENT, sent(1)]);
    Ok(())
}

// Lets peer 2 in by the tested driver at a time, has it greet then, and takes what is said.
fn second(alloc: Global, driver: &mut Driver<TestKey>, millis: u64) -> Result<bool, Fail> {
    prove(driver, 2, 2, millis)?;
    admitted(driver, Link(2), &greeting(alloc, "2@1000")?, at(millis));
    let heard = driver.judged(Link(2), &[true], at(millis));
    next_two(driver);
    next(driver);
    Ok(heard == Ok(Heard::Greeted))
}

// What the tested driver says at ticks of peer 1, which greeted at 2 s, and of peer 2, which did so
// at 12 s; when both are due at once; and at the first one's next tick.
fn both(alloc: Global, driver: &mut Driver<TestKey>) -> Result<[[Said; 2]; 6], Fail> {
    open(alloc, driver, "track 0 1,2")?;
    second(alloc, driver, 12_000)?;
    let first = told(driver, 32_000_000_000)?;
    let between = told(driver, 41_999_999_999)?;
    let other = told(driver, 42_000_000_000)?;
    driver.timeout(&[], at(75_000))?;
    let all = next_two(driver);
    Ok([
        first,
        between,
        other,
        all,
        told(driver, 104_999_999_999)?,
        told(driver, 105_000_000_000)?,
    ])
}

#[test]
fn each_link_has_ticks_of_its_own(rt: HostRuntime) -> Result<(), Fail> {
    let alloc = rt.alloc();
    let found = driven(alloc, SETTINGS, pace(alloc), |driver| both(alloc, driver))??;
    let [first, between, other, all, silent, last] = found;
    assert_eq!(rt; (first, between, other), (sent(1), SILENT, sent(2)));
    let both = [Said::Sent(1), Said::Sent(2)];
    assert_eq!(rt; (all, silent, last), (both, SILENT, both));
    Ok(())
}

// What the tested driver says at 32 s and 40 s of a link that is closing since 3 s.
fn closing(alloc: Global, driver: &mut Driver<TestKey>) -> Result<[[Said; 2]; 2], Fail> {
    open(alloc, driver, "track 0 1,2")?;
    driver.part(&TestKey(1), at(3_000));
    next_two(driver);
    Ok([told(driver, 32_000_000_000)?, told(driver, 40_000_000_000)?])
}

#[test]
fn a_link_that_is_closing_is_not_asked(rt: HostRuntime) -> Result<(), Fail> {
    let alloc = rt.alloc();
    let found = driven(
        alloc,
        SETTINGS,
        pace(alloc),
        |driver| closing(alloc, driver),
    )??;
    assert_eq!(rt; found, [SILENT, SILENT]);
    Ok(())
}

// What the tested driver says, and when it wakes, at 40 s if peer 1 was proved at 1 s, and hasn't
// greeted, and at 50 s, at which its greeting waits since 45 s; once its verdict came at 51 s; and
// at the tick after that.
type Ungreeted = ([[Said; 2]; 2], Option<Duration>, [Said; 3], [[Said; 2]; 2]);

fn ungreeted(alloc: Global, driver: &mut Driver<TestKey>) -> Result<Ungreeted, Fail> {
    track(alloc, driver, "track 0 1,2", 0)?;
    prove(driver, 1, 1, 1_000)?;
    next(driver);
    let early = told(driver, 40_000_000_000)?;
    admitted(driver, Link(1), &greeting(alloc, "1@1000")?, at(45_000));
    let waiting = told(driver, 50_000_000_000)?;
    let wake = driver.next_timeout();
    let _heard = driver.judged(Link(1), &[true], at(51_000));
    let [up, asked] = next_two(driver);
    let greeted = [up, asked, next(driver)];
    let ticks = [told(driver, 80_999_999_999)?, told(driver, 81_000_000_000)?];
    Ok(([early, waiting], wake, greeted, ticks))
}

#[test]
fn a_link_is_not_asked_before_its_peer_has_greeted(rt: HostRuntime) -> Result<(), Fail> {
    let alloc = rt.alloc();
    let mut pace = pace(alloc);
    pace.greeting = Duration::from_secs(60);
    let found = driven(alloc, SETTINGS, pace, |driver| ungreeted(alloc, driver))??;
    let (early, wake, greeted, ticks) = found;
    assert_eq!(rt; early, [SILENT, SILENT]);
    // The cooldown of the grant at 1 s.
    assert_eq!(rt; wake, Some(Duration::from_secs(61)));
    let up = Said::Told(Event::Up(Link(1), TestKey(1)));
    assert_eq!(rt; greeted, [up, Said::Sent(1), Said::Nothing]);
    assert_eq!(rt; ticks, [SILENT, sent(1)]);
    Ok(())
}

// When the tested driver wakes once peer 1 has greeted at 2 s, whose grant was at 1 s; once it was
// asked at 32 s; at 61 s; at 62 s; at 92 s; and once its link is closed.
fn wakes(alloc: Global, driver: &mut Driver<TestKey>) -> Result<[Option<Duration>; 6], Fail> {
    open(alloc, driver, "track 0 1,2")?;
    let first = driver.next_timeout();
    told(driver, 32_000_000_000)?;
    let cooldown = driver.next_timeout();
    told(driver, 61_000_000_000)?;
    let second = driver.next_timeout();
    told(driver, 62_000_000_007)?;
    let third = driver.next_timeout();
    told(driver, 92_000_000_007)?;
    let silence = driver.next_timeout();
    driver.part(&TestKey(1), at(93_000));
    Ok([
        first,
        cooldown,
        second,
        third,
        silence,
        driver.next_timeout(),
    ])
}

#[test]
fn a_driver_wakes_for_a_question(rt: HostRuntime) -> Result<(), Fail> {
    let alloc = rt.alloc();
    let found = driven(alloc, SETTINGS, pace(alloc), |driver| wakes(alloc, driver))??;
    assert_eq!(rt;
        found,
        [
            Some(Duration::from_secs(32)),
            Some(Duration::from_secs(61)),
            Some(Duration::from_secs(62)),
            Some(Duration::from_nanos(92_000_000_007)),
            Some(Duration::from_secs(122)),
            None,
        ]
    );
    Ok(())
}

// What the tested driver says at 122 s, when peer 1 is silent since 2 s, and a question is due.
fn silent(alloc: Global, driver: &mut Driver<TestKey>) -> Result<([Said; 2], [Said; 2]), Fail> {
    open(alloc, driver, "track 0 1,2")?;
    let closed = told(driver, 122_000_000_000)?;
    Ok((closed, next_two(driver)))
}

#[test]
fn who_is_silent_is_closed_and_not_asked(rt: HostRuntime) -> Result<(), Fail> {
    let alloc = rt.alloc();
    let found = driven(alloc, SETTINGS, pace(alloc), |driver| silent(alloc, driver))??;
    let down = Said::Told(Event::Down(Link(1), TestKey(1), Some(Why::Silent)));
    assert_eq!(rt; found, ([Said::Closed(1, Why::Silent), down], SILENT));
    Ok(())
}

// What comes of a list of one info on link 1 of the tested driver, and of the verdict on it.
type Came = (Admission, Result<Heard, Misjudged>);

fn comes(
    alloc: Global,
    driver: &mut Driver<TestKey>,
    word: &'static str,
    millis: u64,
) -> Result<Came, Fail> {
    let came = admitted(driver, Link(1), &list(alloc, &[word])?, at(millis));
    Ok((came, driver.judged(Link(1), &[true], at(millis))))
}

// What comes of three lists, and of one more, after three questions to peer 1.
fn owes(alloc: Global, driver: &mut Driver<TestKey>) -> Result<[Came; 4], Fail> {
    open(alloc, driver, "track 0 1,2")?;
    told(driver, 32_000_000_000)?;
    told(driver, 62_000_000_000)?;
    Ok([
        comes(alloc, driver, "2@1000", 63_000)?,
        comes(alloc, driver, "2@2000", 64_000)?,
        comes(alloc, driver, "2@3000", 65_000)?,
        comes(alloc, driver, "2@4000", 66_000)?,
    ])
}

#[test]
fn as_many_lists_are_taken_as_may_be_owed(rt: HostRuntime) -> Result<(), Fail> {
    let alloc = rt.alloc();
    let taken = (Admission::Verify(1), Ok(Heard::Applied(1)));
    let ignored = (Admission::Ignored, Err(Misjudged));
    let most = [
        (1usize, [true, false, false]),
        (2usize, [true, true, false]),
        (3usize, [true, true, true]),
        (4usize, [true, true, true]),
    ];
    for (owed, expected) in most {
        let mut pace = pace(alloc);
        pace.owed = owed;
        let found = tested(alloc, pace, |driver| owes(alloc, driver))??;
        let [first, second, third, last] = found;
        let is_taken = [first == taken, second == taken, third == taken];
        assert_eq!(rt; is_taken, expected);
        assert!(rt; last == ignored);
    }
    Ok(())
}

// What comes of a list if peer 1 was sent the empty list at 2 s, and once more a tick later; of one
// once a set came, and it was asked for that; and what is said at both ticks.
fn no_set(
    alloc: Global,
    driver: &mut Driver<TestKey>,
) -> Result<([Came; 3], [[Said; 2]; 2]), Fail> {
    prove(driver, 1, 1, 1_000)?;
    let _greeted = greet(alloc, driver, "1@1000", 2_000)?;
    next_two(driver);
    next(driver);
    let first = comes(alloc, driver, "2@1000", 3_000)?;
    let empty = told(driver, 32_000_000_000)?;
    let second = comes(alloc, driver, "2@1000", 33_000)?;
    track(alloc, driver, "track 0 1,2", 34_000)?;
    let question = told(driver, 62_000_000_000)?;
    let third = comes(alloc, driver, "2@1000", 63_000)?;
    Ok(([first, second, third], [empty, question]))
}

#[test]
fn without_a_set_no_question_is_owed(rt: HostRuntime) -> Result<(), Fail> {
    let alloc = rt.alloc();
    let settings = "cooldown=60 boot=1@1.2.3.4:8001";
    let found = driven(alloc, settings, pace(alloc), |driver| no_set(alloc, driver))??;
    let ignored = (Admission::Ignored, Err(Misjudged));
    let again = (Admission::Ignored, Err(Misjudged));
    let taken = (Admission::Verify(1), Ok(Heard::Applied(1)));
    assert_eq!(rt; found, ([ignored, again, taken], [sent(1), sent(1)]));
    Ok(())
}
