//! Each call of a record once.

use crate::fixtures::{info, ingress};
use p2p_discovery::codec::TestKey;
use p2p_discovery::discovery::Info;
use p2p_discovery::types::Ingress;
use p2p_tracker::record::{Address, DialStatus, Dialable, Record, ReserveResult, Status};
use std::process::Abort;
use std::test::Fail;
use std::time::Duration;

fn seconds(count: u64) -> Duration {
    Duration::from_secs(count)
}

fn is_same(info: &Info<TestKey>, other: &Info<TestKey>) -> bool {
    info.ingress == other.ingress
        && info.timestamp == other.timestamp
        && info.public_key == other.public_key
        && info.signature == other.signature
}

// Reserves the peer of the tested record at 100 s, with a jitter of 4 s and a cooldown of 10 s.
fn reserve(record: &mut Record<TestKey>) -> ReserveResult {
    record.reserve(seconds(100), seconds(4), seconds(10))
}

#[test]
fn nobody_is_dialable_at_first(rt: HostRuntime) {
    let dialable: Dialable<TestKey> = Dialable::new(rt.alloc());
    assert!(rt; dialable.peers.is_empty());
    assert!(rt; dialable.next_query_at == None);
}

fn begins_unknown(record: &Record<TestKey>) -> bool {
    matches!(record.address(), Address::Unknown)
        && record.ingress().is_none()
        && record.deletable()
        && record.is_blockable()
        && !record.eligible()
}

fn begins_at(record: &Record<TestKey>, at: &Ingress) -> bool {
    let is_at = match record.address() {
        Address::Bootstrapper(given) => *given == *at,
        _ => false,
    };
    is_at
        && record.ingress() == Some(at)
        && !record.deletable()
        && record.is_blockable()
        && record.eligible()
}

fn begins_as_myself(record: &Record<TestKey>, own: &Info<TestKey>) -> bool {
    let is_own = match record.address() {
        Address::Myself(given) => is_same(given, own),
        _ => false,
    };
    is_own
        && record.is_outbound_target()
        && !record.deletable()
        && !record.is_blockable()
        && !record.eligible()
}

#[test]
fn records_begin_so(rt: HostRuntime) {
    assert!(rt; begins_unknown(&Record::unknown()));
    assert!(rt; begins_at(&Record::bootstrapper(ingress(8001)), &ingress(8001)));
    assert!(rt; begins_as_myself(&Record::myself(info(9, 8009, 5)), &info(9, 8009, 5)));
}

#[test]
fn a_record_counts_its_sets(rt: HostRuntime) {
    let mut record: Record<TestKey> = Record::unknown();
    record.increment_primary();
    assert!(rt; (record.primary_sets(), record.secondary_sets()) == (1, 0));
    assert!(rt; record.is_outbound_target());
    record.increment_secondary();
    assert!(rt; (record.primary_sets(), record.secondary_sets()) == (1, 1));
    record.decrement_primary();
    assert!(rt; (record.primary_sets(), record.secondary_sets()) == (0, 1));
    assert!(rt; record.eligible() && !record.is_outbound_target());
    record.decrement_secondary();
    assert!(rt; record.deletable());
}

#[test]
fn a_record_is_reserved_connected_and_released(rt: HostRuntime) {
    let mut record: Record<TestKey> = Record::bootstrapper(ingress(8001));
    assert!(rt; record.acceptable());
    assert!(rt; reserve(&mut record) == ReserveResult::Reserved);
    assert!(rt; reserve(&mut record) == ReserveResult::Unavailable);
    assert!(rt; record.status() == Status::Reserved);
    record.connect();
    assert!(rt; record.eligible() && !record.acceptable() && !record.needs_teardown());
    assert!(rt; record.status() == Status::Active);
    record.release();
    assert!(rt; record.status() == Status::Inert);
    assert!(rt; reserve(&mut record) == ReserveResult::RateLimited);
}

#[test]
fn who_is_in_no_set_any_more_is_torn_down(rt: HostRuntime) {
    let mut record: Record<TestKey> = Record::unknown();
    assert!(rt; !record.needs_teardown());
    assert!(rt; reserve(&mut record) == ReserveResult::Reserved);
    assert!(rt; record.needs_teardown());
}

#[test]
fn a_cooldown_is_told_and_set(rt: HostRuntime) {
    let mut record: Record<TestKey> = Record::unknown();
    assert!(rt; record.cooldown() == (Duration::ZERO, Duration::ZERO));
    assert!(rt; reserve(&mut record) == ReserveResult::Reserved);
    assert!(rt; record.cooldown() == (seconds(110), seconds(114)));
    assert!(rt; record.status() == Status::Reserved);
    record.release();
    record.set_cooldown(seconds(7), seconds(8));
    assert!(rt; record.cooldown() == (seconds(7), seconds(8)));
}

#[test]
fn a_bootstrapper_is_dialable_from_its_dial_moment_on(rt: HostRuntime) {
    let mut record: Record<TestKey> = Record::bootstrapper(ingress(8001));
    record.set_cooldown(seconds(110), seconds(114));
    let before = record.dialable(seconds(113), true, false);
    assert!(rt; before == DialStatus::After(seconds(114)));
    assert!(rt; record.dialable(seconds(114), true, false) == DialStatus::Now);
    assert!(rt; reserve(&mut record) == ReserveResult::RateLimited);
}

// Whether the info of the tested record, of peer 1, is known, with this number of failed dials.
fn has_failed(record: &Record<TestKey>, failed: usize) -> bool {
    match record.address() {
        Address::Discovered(known, fails) => {
            is_same(known, &info(1, 8001, 1_000)) && *fails == failed
        }
        _ => false,
    }
}

fn assert_failed(rt: &impl Abort, record: &Record<TestKey>, failed: usize) {
    assert!(rt; has_failed(record, failed), "{failed} times");
}

#[test]
fn an_info_is_wanted_again_after_dials_that_failed(rt: HostRuntime) {
    let mut record: Record<TestKey> = Record::unknown();
    assert!(rt; record.want(2));
    assert!(rt; record.update(info(1, 8001, 1_000)));
    assert!(rt; !record.update(info(1, 8002, 1_000)));
    assert_failed(&rt, &record, 0);
    record.dial_failure(&ingress(8001));
    record.dial_failure(&ingress(8002));
    assert_failed(&rt, &record, 1);
    assert!(rt; !record.want(2) && record.want(1));
    record.dial_success();
    assert_failed(&rt, &record, 0);
}

#[test]
fn the_own_info_is_shared(rt: HostRuntime) -> Result<(), Fail> {
    let shared = Record::myself(info(9, 8009, 5)).sharable()?;
    assert!(rt; shared.is_some_and(|shared| is_same(&shared, &info(9, 8009, 5))));
    assert!(rt; Record::<TestKey>::unknown().sharable()?.is_none());
    Ok(())
}
