//! In how many retained sets a peer is.

ghost use Rattle.std.specs.Prelude.{◌≡◌, ◌+◌, ◌-◌, ◌<◌, ◌^◌};
ghost use Rattle.p2p_tracker.specs.Private.Counts.{with_one_more, with_one_less};
ghost use Rattle.p2p_tracker.specs.Private.Counts.{is_torn_down_without};

use crate::record::{Record, Role, Status};
use p2p_discovery::codec::PublicKey;

impl<C: PublicKey> Record<C> {
    /// The record's count of primary sets in which the peer is.
    pub fn primary_sets(&self) -> usize
        ensures { result ≡ self.now.primary_sets }
    {
        self.primary_sets
    }

    /// The record's count of secondary sets in which the peer is.
    pub fn secondary_sets(&self) -> usize
        ensures { result ≡ self.now.secondary_sets }
    {
        self.secondary_sets
    }

    /// Adds one to the record's count of primary sets.
    ///
    /// # Conditions
    ///
    /// The count is below `usize::MAX`.
    pub fn increment_primary(&mut self)
        requires { self.old.primary_sets < 2 ^ 64 - 1 }
        ensures { self.new ≡ record self.old { primary_sets = self.old.primary_sets + 1 } }
    {
        self.primary_sets += 1;
    }

    /// Takes one from the record's count of primary sets.
    ///
    /// # Conditions
    ///
    /// The count is above 0.
    pub fn decrement_primary(&mut self)
        requires { 0 < self.old.primary_sets }
        ensures { self.new ≡ record self.old { primary_sets = self.old.primary_sets - 1 } }
    {
        self.primary_sets -= 1;
    }

    /// Adds one to the record's count of secondary sets.
    ///
    /// # Conditions
    ///
    /// The count is below `usize::MAX`.
    pub fn increment_secondary(&mut self)
        requires { self.old.secondary_sets < 2 ^ 64 - 1 }
        ensures { self.new ≡ record self.old { secondary_sets = self.old.secondary_sets + 1 } }
    {
        self.secondary_sets += 1;
    }

    /// Takes one from the record's count of secondary sets.
    ///
    /// # Conditions
    ///
    /// The count is above 0.
    pub fn decrement_secondary(&mut self)
        requires { 0 < self.old.secondary_sets }
        ensures { self.new ≡ record self.old { secondary_sets = self.old.secondary_sets - 1 } }
    {
        self.secondary_sets -= 1;
    }

    // Adds one to the record's count of sets of the role, up to `usize::MAX`.
    pub(crate) fn count_more(&mut self, role: Role)
        ensures { self.new ≡ with_one_more role self.old }
    {
        match role {
            Role::Primary => self.primary_sets = self.primary_sets.saturating_add(1),
            Role::Secondary => self.secondary_sets = self.secondary_sets.saturating_add(1),
        }
    }

    // Takes one from the record's count of sets of the role, if it is above 0.
    pub(crate) fn count_less(&mut self, role: Role)
        ensures { self.new ≡ with_one_less role self.old }
    {
        match role {
            Role::Primary => self.primary_sets = self.primary_sets.saturating_sub(1),
            Role::Secondary => self.secondary_sets = self.secondary_sets.saturating_sub(1),
        }
    }

    // Whether the record's peer must be disconnected once the count of sets of the role is one
    // less: it is not inert, is eligible, and would no longer be.
    #[tactic(auto, unfolding(crate::specs::Private::Counts::is_torn_down_without))]
    pub(crate) fn is_torn_down_without(&self, role: Role) -> bool
        ensures { result ≡ is_torn_down_without role self.now }
    {
        let stays_in_set = match role {
            Role::Primary => self.primary_sets > 1 || self.secondary_sets > 0,
            Role::Secondary => self.primary_sets > 0 || self.secondary_sets > 1,
        };
        self.status != Status::Inert && self.eligible() && !stays_in_set && !self.persistent
    }
}
