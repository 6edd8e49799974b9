//! Laws of one directory, over the calls that it accepted.

ghost use Rattle.std.specs.Prelude.{◌≡◌, ◌≤◌, ◌<◌, ◌^◌, ℕ, Bool, true, false, List, [], ◌∷◌, ◌++◌};
ghost use Rattle.std.specs.Prelude.{map, Option, Some, option_map, is_some, IfSome, IfNone, ◌+◌};
ghost use Rattle.std.specs.List.{AllByRecursion};
ghost use Rattle.p2p_discovery.specs.declared.discovery.Info.{Info};
ghost use Rattle.p2p_tracker.specs.Calls.{Settings, SetAt, Call, Question};
ghost use Rattle.p2p_tracker.specs.Calls.Call.{Track, Dial, Listen, Connect, Release, Update};
ghost use Rattle.p2p_tracker.specs.Calls.Call.{Block, UnblockExpired, ForgetCooled, Ask};
ghost use Rattle.p2p_tracker.specs.History.{taken_sets};
ghost use Rattle.p2p_tracker.specs.World.{World, world_at, past, step, new_known};
ghost use Rattle.p2p_tracker.specs.Lists.{Lists, IsLeastOf};
ghost use Rattle.p2p_tracker.specs.Answers.{is_present_in, IsNumberTracked, IsNumberCooled};
ghost use Rattle.p2p_tracker.specs.Answers.{is_torn_down, IsDialable, IsTrackAnswer, was_blocked};
ghost use Rattle.p2p_tracker.specs.Moments.{cap};
ghost use Rattle.p2p_tracker.specs.PeerSets.{set_of, latest_index, is_above};
ghost use Rattle.p2p_tracker.specs.declared.directory.Metadata.{Metadata};
ghost use Rattle.p2p_tracker.specs.Directory.{Reserves, Connects, Releases, BlocksUntil, Updates};
ghost use Rattle.p2p_tracker.specs.Directory.{LeavesOthers, IsAsBefore, infos_of, first_record};
ghost use Rattle.p2p_tracker.specs.Directory.{TakesSet, AreTornDown, IsReserved, may_dial_in};
ghost use Rattle.p2p_tracker.specs.Directory.{may_listen_in, ingress_in, may_block, EndsBlocks};
ghost use Rattle.p2p_tracker.specs.Directory.{ForgetsCooled};
ghost use Rattle.p2p_tracker.specs.Seen.{DirectoryView, record_of, key_of};
ghost use Rattle.p2p_directory.specs.Held.{AreHeld, AddsHeld, DropsHeld};
ghost use Rattle.p2p_directory.specs.Laws.Effects.{HoldsNone, DirectoryStandsAt, granted_after};
ghost use Rattle.p2p_directory.specs.Laws.Isolation.{SameFor, AnswersAlike, left_for};
ghost use Rattle.p2p_directory.specs.Laws.Isolation.{is_on_another, narrowed};
ghost use Rattle.p2p_directory.specs.Laws.Order.{HaveSame, IsUnambiguous};
ghost use Rattle.p2p_directory.specs.Laws.Bounds.{NamesAtMost, IsBounded, AreListed};
ghost use Rattle.p2p_directory.specs.Laws.Bounds.{IsNamingListed};
ghost use Rattle.p2p_directory.specs.Laws.Grants.{KeepsCooldown, KeepsCooldownUnlessForgotten};
ghost use Rattle.p2p_directory.specs.Laws.Grants.{NeverGoBack, KeepsBlocks};
ghost use Rattle.p2p_tracker.specs.Dials.{AreChosen, AreDialled, IsBefore};
ghost use Rattle.p2p_directory.specs.Refinement.{Refines, config_of};
ghost use Rattle.p2p_directory.specs.Run.{world_after, event_of};
ghost use Rattle.p2p_directory.specs.Laws.Refined.{AnswersAs};

use p2p_discovery::codec::PublicKey;

/// The main law of directories, for every setup with at least one set, every list of accepted
/// calls, the newest first, and one more call. The world recomputed from all these calls is one
/// step from the world recomputed from the calls before.
pub fn recomputed_is_one_step<C: PublicKey>()
    ensures { (s : Settings C C.Signature) → s.cmp ≡ C.cmp → 1 ≤ s.max_sets →
        (cs : List (Call C C.Signature)) (c : Call C C.Signature) →
        world_at s (past s (c ∷ cs)) ≡ step s (world_at s (past s cs)) c }
{}

/// By a law of directories, if one refines the world that the accepted calls make, its results are
/// those of that world. By its clause `directory`, [`run`](crate::run::run) returns such a
/// directory. So this law is for callers that go on with a directory that a run or a node leaves,
/// or that make all calls by hand: [`effects_refine`]. The results are those of the calls of
/// [`Directory`](p2p_tracker::directory::Directory): of each query, who is granted, whether a block
/// has ended, and how many cooldowns. The failure limit fits `usize`, as in each `Config`.
pub fn refined_answers<C: PublicKey>()
    ensures { (s : Settings C C.Signature) → s.cmp ≡ C.cmp → s.dial_fail_limit < 2 ^ 64 →
        (cs : List (Call C C.Signature)) (d : DirectoryView C C.Signature) →
        Refines s (world_after s cs) d → AnswersAs s (world_after s cs) d }
{}

/// By a law of directories, their calls may be made by hand. A directory, with the reservations
/// that its caller holds, stands at the point after some accepted calls if it refines the world
/// that they make and these are the grants of that world. If it does before a call, it does after
/// it: what a clause wants to know of the call is what the contract of the call says. By
/// [`refined_answers`] each query then has the result of that world.
///
/// - A new directory, of which nothing is held, stands at the point before any call.
/// - A track, a dial, a listen and a block are accepted whether or not they take effect. A track
///   returns the peers that the worlds tear down. A dial and a listen return the reservation that
///   is granted in the world, for a dial at the address that is known there; the caller then holds
///   it. A block takes effect if it does in the world.
/// - A reservation that is released is the one that is held of its peer.
/// - Queries change nothing. A call that runs out of memory isn't accepted.
///
/// Reservations are held of exactly the peers that are reserved or connected.
pub fn effects_refine<C: PublicKey>()
    ensures starts { (s : Settings C C.Signature) → s.cmp ≡ C.cmp →
        (d : DirectoryView C C.Signature) (held : C → Option (Metadata C C.Signature)) →
        d.config ≡ config_of s → d.sets ≡ [] → d.blocks ≡ [] → d.cooldowns ≡ [] →
        ((q : C) → record_of C.cmp d q ≡ first_record C.cmp s.bootstrappers s.own q) →
        HoldsNone held → DirectoryStandsAt s [] d held }
    ensures tracks { (s : Settings C C.Signature) → s.cmp ≡ C.cmp → 1 ≤ s.max_sets →
        (cs : List (Call C C.Signature)) (old new : DirectoryView C C.Signature)
        (held : C → Option (Metadata C C.Signature)) (index : ℕ) (primary secondary : List C)
        (torn : Option (List C)) → DirectoryStandsAt s cs old held →
        is_some torn ≡ is_above index (latest_index old.sets) → IfNone torn (new ≡ old) →
        IfSome torn (λ _. TakesSet C.cmp old new (set_of C.cmp index primary secondary)) →
        IfSome torn (AreTornDown C.cmp old new) →
        let c = Track index primary secondary in DirectoryStandsAt s (c ∷ cs) new held ×
        IsTrackAnswer s (event_of s cs c) (world_after s cs) (world_after s (c ∷ cs)) torn }
    ensures dials { (s : Settings C C.Signature) → s.cmp ≡ C.cmp → 1 ≤ s.max_sets →
        (cs : List (Call C C.Signature)) (old new : DirectoryView C C.Signature)
        (held left : C → Option (Metadata C C.Signature)) (p : C) (now draw : ℕ)
        (reservation : Option (Metadata C C.Signature)) → DirectoryStandsAt s cs old held →
        is_some reservation ≡ may_dial_in C.cmp old now p → IfNone reservation (new ≡ old) →
        IfSome reservation (λ metadata.
        option_map (Metadata.Dialer p) (ingress_in C.cmp old p) ≡ Some metadata) →
        IfSome reservation (λ _. Reserves C.cmp old new p now draw) →
        AddsHeld C.cmp held left p reservation →
        let c = Dial p now draw in
        DirectoryStandsAt s (c ∷ cs) new left × (reservation ≡ granted_after s cs p c) }
    ensures listens { (s : Settings C C.Signature) → s.cmp ≡ C.cmp → 1 ≤ s.max_sets →
        (cs : List (Call C C.Signature)) (old new : DirectoryView C C.Signature)
        (held left : C → Option (Metadata C C.Signature)) (p : C) (now draw : ℕ)
        (reservation : Option (Metadata C C.Signature)) → DirectoryStandsAt s cs old held →
        is_some reservation ≡ may_listen_in C.cmp old now p → IfNone reservation (new ≡ old) →
        IfSome reservation (λ metadata. metadata ≡ Metadata.Listener p) →
        IfSome reservation (λ _. Reserves C.cmp old new p now draw) →
        AddsHeld C.cmp held left p reservation →
        let c = Listen p now draw in
        DirectoryStandsAt s (c ∷ cs) new left × (reservation ≡ granted_after s cs p c) }
    ensures connects { (s : Settings C C.Signature) → s.cmp ≡ C.cmp → 1 ≤ s.max_sets →
        (cs : List (Call C C.Signature)) (old new : DirectoryView C C.Signature)
        (held : C → Option (Metadata C C.Signature)) (p : C) (dialer : Bool) →
        DirectoryStandsAt s cs old held → IsReserved C.cmp old p →
        Connects C.cmp old new p dialer → DirectoryStandsAt s (Connect p dialer ∷ cs) new held }
    ensures releases { (s : Settings C C.Signature) → s.cmp ≡ C.cmp → 1 ≤ s.max_sets →
        (cs : List (Call C C.Signature)) (old new : DirectoryView C C.Signature)
        (held left : C → Option (Metadata C C.Signature)) (metadata : Metadata C C.Signature) →
        DirectoryStandsAt s cs old held → held (key_of metadata) ≡ Some metadata →
        Releases C.cmp old new metadata → DropsHeld C.cmp held left (key_of metadata) →
        DirectoryStandsAt s (Release (key_of metadata) ∷ cs) new left }
    ensures updates { (s : Settings C C.Signature) → s.cmp ≡ C.cmp → 1 ≤ s.max_sets →
        (cs : List (Call C C.Signature)) (old new : DirectoryView C C.Signature)
        (held : C → Option (Metadata C C.Signature)) (infos : List (Info C C.Signature)) →
        DirectoryStandsAt s cs old held → Updates C.cmp old new infos →
        DirectoryStandsAt s (Update infos ∷ cs) new held }
    ensures blocks { (s : Settings C C.Signature) → s.cmp ≡ C.cmp → 1 ≤ s.max_sets →
        (cs : List (Call C C.Signature)) (old new : DirectoryView C C.Signature)
        (held : C → Option (Metadata C C.Signature)) (p : C) (now : ℕ) (taken : Bool) →
        DirectoryStandsAt s cs old held → taken ≡ may_block C.cmp old now p →
        (taken ≡ false → new ≡ old) → (taken ≡ true →
        BlocksUntil C.cmp old new p (cap (now + old.config.block_duration))) →
        let c = Block p now in
        DirectoryStandsAt s (c ∷ cs) new held × (taken ≡ was_blocked (event_of s cs c)) }
    ensures unblocks { (s : Settings C C.Signature) → s.cmp ≡ C.cmp → 1 ≤ s.max_sets →
        (cs : List (Call C C.Signature)) (old new : DirectoryView C C.Signature)
        (held : C → Option (Metadata C C.Signature)) (now : ℕ) →
        DirectoryStandsAt s cs old held → EndsBlocks C.cmp old new now →
        DirectoryStandsAt s (UnblockExpired now ∷ cs) new held }
    ensures forgets { (s : Settings C C.Signature) → s.cmp ≡ C.cmp → 1 ≤ s.max_sets →
        (cs : List (Call C C.Signature)) (old new : DirectoryView C C.Signature)
        (held : C → Option (Metadata C C.Signature)) (now : ℕ) →
        DirectoryStandsAt s cs old held → ForgetsCooled C.cmp old new now →
        DirectoryStandsAt s (ForgetCooled now ∷ cs) new held }
    ensures asks { (s : Settings C C.Signature) → s.cmp ≡ C.cmp → 1 ≤ s.max_sets →
        (cs : List (Call C C.Signature)) (d : DirectoryView C C.Signature)
        (held : C → Option (Metadata C C.Signature)) (question : Question C) →
        DirectoryStandsAt s cs d held → DirectoryStandsAt s (Ask question ∷ cs) d held }
    ensures agree { (s : Settings C C.Signature) → s.cmp ≡ C.cmp →
        (cs : List (Call C C.Signature)) (d : DirectoryView C C.Signature)
        (held : C → Option (Metadata C C.Signature)) →
        DirectoryStandsAt s cs d held → AreHeld C.cmp d held }
{}

/// By a law of directories, an answer that lists keys with a property, gives an earliest time, or
/// counts the tracked or cooled keys is unique in its world.
pub fn answers_are_determined<C: PublicKey>()
    ensures lists { (s : Settings C C.Signature) → s.cmp ≡ C.cmp →
        (test : C → Bool) (xs ys : List C) → Lists s.cmp test xs → Lists s.cmp test ys → xs ≡ ys }
    ensures moments { (s : Settings C C.Signature) (moment : C → Option ℕ) (a b : Option ℕ) →
        IsLeastOf moment a → IsLeastOf moment b → a ≡ b }
    ensures numbers { (s : Settings C C.Signature) → s.cmp ≡ C.cmp →
        (w : World C C.Signature) (m n : ℕ) → IsNumberTracked s w m → IsNumberTracked s w n →
        m ≡ n }
    ensures cooled { (s : Settings C C.Signature) → s.cmp ≡ C.cmp →
        (w : World C C.Signature) (t m n : ℕ) →
        IsNumberCooled s w t m → IsNumberCooled s w t n → m ≡ n }
{}

/// By a law of directories, calls on other single peers, and the infos of others in updates, may be
/// left out of the accepted calls. All that is said of p is the same, and so are the results on p
/// and the effects of calls on p.
pub fn others_may_be_left_out<C: PublicKey>()
    ensures same { (s : Settings C C.Signature) → s.cmp ≡ C.cmp → 1 ≤ s.max_sets →
        (p : C) (cs : List (Call C C.Signature)) →
        SameFor p (world_at s (past s cs)) (world_at s (past s (left_for s p cs))) }
    ensures answers { (s : Settings C C.Signature) → s.cmp ≡ C.cmp →
        (p : C) (w v : World C C.Signature) → SameFor p w v → AnswersAlike s p w v }
    ensures torn_down { (s : Settings C C.Signature) (p : C) (w v w2 v2 : World C C.Signature) →
        SameFor p w w2 → SameFor p v v2 → is_torn_down s w v p ≡ is_torn_down s w2 v2 p }
{}

/// By a law of directories, each call keeps what is said of others. A call on another single peer
/// leaves all that is said of p as it was; an update changes it by p's infos alone.
pub fn each_call_keeps_others<C: PublicKey>()
    ensures another { (s : Settings C C.Signature) → 1 ≤ s.max_sets →
        (p : C) (c : Call C C.Signature) (cs : List (Call C C.Signature)) →
        is_on_another s p c ≡ true →
        SameFor p (world_at s (past s (c ∷ cs))) (world_at s (past s cs)) }
    ensures narrowed { (s : Settings C C.Signature) (p : C) (w : World C C.Signature)
        (c : Call C C.Signature) → SameFor p (step s w c) (step s w (narrowed s p c)) }
{}

/// By a law of directories, the effects of calls keep others, call by call. What `dial`, `listen`,
/// `connect`, `release` and `block` do to one peer leaves the retained sets as they are. They also
/// leave each other peer's record, block and cooldown as they are. Infos that are offered change a
/// peer's record by those of its own key alone, and nothing else.
pub fn effects_keep_others<C: PublicKey>()
    ensures reserves { (old new : DirectoryView C C.Signature) (p : C) (now draw : ℕ) →
        Reserves C.cmp old new p now draw → LeavesOthers C.cmp old new p }
    ensures connects { (old new : DirectoryView C C.Signature) (p : C) (dialer : Bool) →
        Connects C.cmp old new p dialer → LeavesOthers C.cmp old new p }
    ensures releases { (old new : DirectoryView C C.Signature) (metadata : Metadata C C.Signature) →
        Releases C.cmp old new metadata → LeavesOthers C.cmp old new (key_of metadata) }
    ensures blocks { (old new : DirectoryView C C.Signature) (p : C) (until : ℕ) →
        BlocksUntil C.cmp old new p until → LeavesOthers C.cmp old new p }
    ensures updates { (old new other : DirectoryView C C.Signature)
        (infos only : List (Info C C.Signature)) (q : C) →
        Updates C.cmp old new infos → Updates C.cmp old other only →
        infos_of C.cmp infos q ≡ infos_of C.cmp only q →
        (new.sets ≡ old.sets) × IsAsBefore C.cmp other new q }
{}

/// By a law of directories, the order of infos doesn't matter if no two of one key have the same
/// timestamp. They may be in one update, or in several that follow each other directly.
pub fn order_is_free<C: PublicKey>()
    ensures alike { (s : Settings C C.Signature) (w : World C C.Signature)
        (xs ys : List (Info C C.Signature)) → HaveSame xs ys → IsUnambiguous s xs →
        step s w (Update xs) ≡ step s w (Update ys) }
    ensures joined { (s : Settings C C.Signature) (w : World C C.Signature)
        (xs ys : List (Info C C.Signature)) → step s (step s w (Update xs)) (Update ys) ≡
        step s w (Update (xs ++ ys)) }
    ensures later { (s : Settings C C.Signature) → 1 ≤ s.max_sets →
        (es cs ds : List (Call C C.Signature)) → world_at s (past s cs) ≡ world_at s (past s ds) →
        world_at s (past s (es ++ cs)) ≡ world_at s (past s (es ++ ds)) }
    ensures effects { (s : Settings C C.Signature) → s.cmp ≡ C.cmp →
        (old new : DirectoryView C C.Signature) (xs ys : List (Info C C.Signature)) →
        HaveSame xs ys → IsUnambiguous s xs →
        Updates C.cmp old new xs → Updates C.cmp old new ys }
{}

/// By a law of directories, if each registered set names at most n distinct peers, the number of
/// present keys is bounded. The bound is n for each set that may be retained, plus the persistent
/// keys, plus the peers that are not inert and in no set. There are sorted lists of each of these
/// keys, without repeats, and of the peers of each set: so the bound always says something.
pub fn presence_is_bounded<C: PublicKey>()
    ensures bounded { (s : Settings C C.Signature) → s.cmp ≡ C.cmp →
        (n : ℕ) (cs : List (Call C C.Signature)) →
        AllByRecursion (NamesAtMost s n) (taken_sets s (past s cs)) →
        IsBounded s n (world_at s (past s cs)) }
    ensures listed { (s : Settings C C.Signature) → s.cmp ≡ C.cmp →
        (cs : List (Call C C.Signature)) → AreListed s (world_at s (past s cs)) }
    ensures named { (s : Settings C C.Signature) → s.cmp ≡ C.cmp →
        (x : SetAt C) → IsNamingListed s x }
{}

/// By a law of directories, the info and failures of an absent peer are forgotten: what is known of
/// it is what is known of a new peer.
pub fn absent_are_forgotten<C: PublicKey>()
    ensures { (s : Settings C C.Signature) (cs : List (Call C C.Signature)) (p : C) →
        is_present_in s (world_at s (past s cs)) p ≡ false →
        ((world_at s (past s cs)).peer p).known ≡ new_known s p }
{}

/// By a law of directories, two consecutive grants of a peer are spaced if the first isn't
/// forgotten in between. The second comes no earlier than the cooldown after the first, capped at
/// `Duration::MAX`. This also holds if its record was deleted and made again in between. Times may
/// go backwards.
pub fn grants_are_spaced<C: PublicKey>()
    ensures { (s : Settings C C.Signature) → s.cmp ≡ C.cmp →
        (p : C) (cs : List (Call C C.Signature)) → KeepsCooldownUnlessForgotten s p (past s cs) }
{}

/// By a law of directories, if the times of the calls never go backwards, two consecutive grants of
/// a peer are at least the cooldown apart, capped at `Duration::MAX`. This holds whatever was
/// forgotten, and also if its record was deleted and made again in between.
pub fn cooldown_lasts<C: PublicKey>()
    ensures { (s : Settings C C.Signature) → s.cmp ≡ C.cmp →
        (p : C) (cs : List (Call C C.Signature)) (now : ℕ) → NeverGoBack s now cs →
        KeepsCooldown s p (past s cs) }
{}

/// By a law of directories, blocks hold if the times of the calls never go backwards. A peer whose
/// block was accepted is granted by no later call before the block's end, capped at
/// `Duration::MAX`. This also holds if its record was deleted and made again in between.
pub fn blocks_hold<C: PublicKey>()
    ensures { (s : Settings C C.Signature) → s.cmp ≡ C.cmp →
        (p : C) (cs : List (Call C C.Signature)) (now : ℕ) → NeverGoBack s now cs →
        KeepsBlocks s p (past s cs) }
{}

/// By a law of directories, dials of the peers that `dialable` lists are all granted if they
/// directly follow each other at the same time, with any draws. They may be dials of the whole list
/// in its order, or of any of its peers in any order, each once.
pub fn dialable_are_granted<C: PublicKey>()
    ensures whole { (s : Settings C C.Signature) → s.cmp ≡ C.cmp → 1 ≤ s.max_sets →
        (cs : List (Call C C.Signature)) (t : ℕ) (xs : List (C × ℕ)) (next : Option ℕ) →
        IsDialable s (world_at s (past s cs)) t (map (λ x. x.0) xs) next → AreDialled s t xs cs }
    ensures chosen { (s : Settings C C.Signature) → s.cmp ≡ C.cmp → 1 ≤ s.max_sets →
        (cs : List (Call C C.Signature)) (t : ℕ) (ps : List C) (xs : List (C × ℕ))
        (next : Option ℕ) →
        IsDialable s (world_at s (past s cs)) t ps next → AreChosen s ps xs → AreDialled s t xs cs }
{}

/// By a law of directories, a result of `dialable`, its peers and its next query, stays the same if
/// nothing is called in between: until its next query, or for ever if it has none. Each time has
/// one result.
pub fn dialable_is_quiet<C: PublicKey>()
    ensures stays { (s : Settings C C.Signature) (w : World C C.Signature) (t u : ℕ) (ps : List C)
        (next : Option ℕ) →
        IsDialable s w t ps next → t ≤ u → IsBefore u next → IsDialable s w u ps next }
    ensures only { (s : Settings C C.Signature) → s.cmp ≡ C.cmp →
        (w : World C C.Signature) (t : ℕ) (ps qs : List C) (next after : Option ℕ) →
        IsDialable s w t ps next → IsDialable s w t qs after → (ps ≡ qs) × (next ≡ after) }
{}
