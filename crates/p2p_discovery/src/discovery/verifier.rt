//! Which infos are valid, and why others are refused.

ghost use Rattle.std.specs.Prelude.{◌≡◌, ◌≤◌, true, false, take, length, nat_lt, get_or};
ghost use Rattle.std.specs.Duration.{as_nanos};
ghost use Rattle.p2p_discovery.specs.Judgement.{judge_of, refusal, list_refusal, judged};
ghost use Rattle.p2p_discovery.specs.Judgement.{refusal_if, list_refusal_by, to_verify};

use crate::codec::PublicKey;
use crate::discovery::{Error, Info};
use std::cmp::Ordering;
use std::marker::Model;
use std::time::Duration;

/// How infos are verified; made by [`Info::verifier`]. A contract sees what it holds.
#[derive(Drop)]
pub struct InfoVerifier<C: PublicKey> {
    me: C,
    peer_gossip_max_count: usize,
    synchrony_bound: Duration,
    ip_namespace: Vec<u8>,
}

impl<C: PublicKey> Model for InfoVerifier<C> {
    ghost use Rattle.std.specs.Duration.{as_nanos};
    ghost use Rattle.p2p_discovery.specs.Judgement.{Verifier};

    ghost Value = { Verifier C };

    ghost view = { λ v. record {
      me = v.me;
      greatest_count = v.peer_gossip_max_count;
      synchrony_bound = as_nanos v.synchrony_bound;
      namespace = v.ip_namespace.items;
    } };
}

impl<C: PublicKey> Info<C> {
    /// A verifier of infos for the peer with this key. It accepts at most so many infos at once,
    /// timestamps that are at most the synchrony bound ahead, and signatures in this namespace. It
    /// doesn't allocate.
    pub fn verifier(
        me: C,
        peer_gossip_max_count: usize,
        synchrony_bound: Duration,
        ip_namespace: Vec<u8>,
    ) -> InfoVerifier<C>
        ensures { result ≡ record {
          me = me;
          greatest_count = peer_gossip_max_count;
          synchrony_bound = as_nanos synchrony_bound;
          namespace = ip_namespace.items;
        } }
    {
        InfoVerifier {
            me,
            peer_gossip_max_count,
            synchrony_bound,
            ip_namespace,
        }
    }
}

impl<C: PublicKey> InfoVerifier<C> {
    /// Whether the info is valid at a time, by this verifier. It doesn't allocate.
    ///
    /// # Errors
    ///
    /// The first of these that holds:
    /// - `ReceivedSelf`: the info has the verifier's own key.
    /// - `SynchronyBound`: its timestamp is later than `now` plus the synchrony bound, a sum that
    ///   saturates at the maximum time.
    /// - `InvalidSignature`: its signature isn't one of its key in the verifier's namespace.
    ///
    /// # Cost
    ///
    /// One comparison of keys, and one [`Info::verify`] if neither of the first two errors holds.
    pub fn validate_info(&self, now: Duration, info: &Info<C>) -> Result<(), Error>
        ensures { result
            ≡ judged (refusal (judge_of C.cmp C.verifies self.now) (as_nanos now) info.now) }
    {
        self.validate_unsigned(now, info)?;
        if !info.verify(&self.ip_namespace) {
            return Err(Error::InvalidSignature);
        }
        Ok(())
    }

    /// Whether the info is valid at a time, by this verifier, given whether its signature is valid.
    /// It doesn't allocate.
    ///
    /// # Errors
    ///
    /// Those of [`InfoVerifier::validate_info`], in the same order.
    pub fn validate_info_with_verdict(
        &self,
        now: Duration,
        info: &Info<C>,
        right: bool,
    ) -> Result<(), Error>
        ensures { result ≡ judged
            (refusal_if (judge_of C.cmp C.verifies self.now) right (as_nanos now) info.now) }
    {
        self.validate_unsigned(now, info)?;
        if !right {
            return Err(Error::InvalidSignature);
        }
        Ok(())
    }

    // Whether the info is valid at a time, by this verifier, if its signature is.
    fn validate_unsigned(&self, now: Duration, info: &Info<C>) -> Result<(), Error>
        ensures { result ≡ judged
            (refusal_if (judge_of C.cmp C.verifies self.now) true (as_nanos now) info.now) }
    {
        if let Ordering::Equal = self.me.cmp(&info.public_key) {
            return Err(Error::ReceivedSelf);
        }
        let latest = now.saturating_add(self.synchrony_bound);
        if Duration::from_millis(info.timestamp).as_nanos() > latest.as_nanos() {
            return Err(Error::SynchronyBound);
        }
        Ok(())
    }

    /// Whether all of the infos are valid at a time, by this verifier. It doesn't allocate.
    ///
    /// # Errors
    ///
    /// `TooManyPeers` of their number if they are more than the verifier accepts at once; else the
    /// first error of [`InfoVerifier::validate_info`], in the order of the list.
    ///
    /// # Cost
    ///
    /// One [`InfoVerifier::validate_info`] for each info up to the first that is refused, and none
    /// if they are too many.
    pub fn validate(&self, now: Duration, infos: &[Info<C>]) -> Result<(), Error>
        ensures { result
            ≡ judged (list_refusal (judge_of C.cmp C.verifies self.now) (as_nanos now) infos.now) }
    {
        if self.are_too_many(infos) {
            return Err(Error::TooManyPeers(infos.len()));
        }
        for info in infos {
            self.validate_info(now, info)?;
        }
        Ok(())
    }

    /// Whether all of the infos are valid at a time, by this verifier, given whether the signature
    /// of each is, in the order of the list. A signature without a result counts as invalid. It
    /// doesn't allocate.
    ///
    /// # Errors
    ///
    /// Those of [`InfoVerifier::validate`], in the same order.
    pub fn validate_with_verdicts(
        &self,
        now: Duration,
        infos: &[Info<C>],
        verdicts: &[bool],
    ) -> Result<(), Error>
        ensures { result ≡ judged (list_refusal_by (judge_of C.cmp C.verifies self.now) verdicts.now
            (as_nanos now) infos.now) }
    {
        if self.are_too_many(infos) {
            return Err(Error::TooManyPeers(infos.len()));
        }
        for place in 0..infos.len() {
            self.validate_info_with_verdict(now, &infos[place], is_right(verdicts, place))?;
        }
        Ok(())
    }

    /// How many of the infos have a signature that decides for this verifier whether they are valid
    /// at a time. They are those before the first that is refused whatever its signature is, and
    /// none if they are too many. It doesn't allocate.
    pub fn count_to_verify(&self, now: Duration, infos: &[Info<C>]) -> usize
        ensures value { take result infos.now
            ≡ to_verify (judge_of C.cmp C.verifies self.now) (as_nanos now) infos.now }
        ensures bound { result ≤ length infos.now }
    {
        if self.are_too_many(infos) {
            return 0;
        }
        for place in 0..infos.len() {
            if let Err(_) = self.validate_unsigned(now, &infos[place]) {
                return place;
            }
        }
        infos.len()
    }

    // Whether the infos are more than the verifier accepts at once.
    fn are_too_many(&self, infos: &[Info<C>]) -> bool
        ensures { result ≡ nat_lt self.now.greatest_count (length infos.now) }
    {
        infos.len() > self.peer_gossip_max_count
    }
}

// Whether a signature is valid by the verification result that a verifier is given; it isn't if
// there is none.
fn is_right(verdicts: &[bool], place: usize) -> bool
    ensures { result ≡ get_or verdicts.now place false }
{
    place < verdicts.len() && verdicts[place]
}
