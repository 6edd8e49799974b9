//! Laws of one more accepted call and of full questions, for a caller's own proofs.

ghost use Rattle.std.specs.Prelude.{◌≡◌, ◌≤◌, ℕ, Bool, true, List, ◌∷◌, Some, is_some};
ghost use Rattle.p2p_discovery.specs.declared.discovery.BitVec.{BitVec};
ghost use Rattle.p2p_discovery.specs.declared.discovery.Info.{Info};
ghost use Rattle.p2p_tracker.specs.Calls.{Settings, SetAt, Call, Question, reserved_by};
ghost use Rattle.p2p_tracker.specs.Calls.Call.{Dial, Listen, Connect, Update, Ask};
ghost use Rattle.p2p_tracker.specs.World.{World, status_after};
ghost use Rattle.p2p_tracker.specs.Answers.{may_connect, was_granted, set_at_place};
ghost use Rattle.p2p_tracker.specs.Answers.{set_with_index, infos_for};
ghost use Rattle.p2p_tracker.specs.Moments.{epoch_millis};
ghost use Rattle.p2p_directory.specs.declared.run.commands.Reply.{Reply};
ghost use Rattle.p2p_directory.specs.Run.{world_after, event_of, full_bit_vec_in};
ghost use Rattle.p2p_directory.specs.Nodes.{Made, IsStepAnswer};
ghost use Rattle.p2p_directory.specs.Laws.Steps.{is_busy_in, is_busy_after, LeavesMoments};
ghost use Rattle.p2p_directory.specs.Laws.Steps.{all_infos_for};

use p2p_discovery::codec::PublicKey;

/// By a law of directories, how a peer stands after one more accepted call is one step from how it
/// stood before.
///
/// - Its status is what the call makes of the status before.
/// - A reservation is held of exactly the peers that are busy, that is, reserved or connected.
/// - A peer is busy then exactly if the call is a `Dial` or a `Listen` of it that is granted, or it
///   was busy before and the call is no `Release` of it.
pub fn busy_is_one_step<C: PublicKey>()
    ensures status { (s : Settings C C.Signature) → s.cmp ≡ C.cmp → 1 ≤ s.max_sets →
        (cs : List (Call C C.Signature)) (c : Call C C.Signature) (p : C) →
        ((world_after s (c ∷ cs)).peer p).status ≡
        status_after s p (event_of s cs c) ((world_after s cs).peer p).status }
    ensures held { (s : Settings C C.Signature) (cs : List (Call C C.Signature)) (p : C) →
        is_some ((world_after s cs).held p) ≡ is_busy_in (world_after s cs) p }
    ensures busy { (s : Settings C C.Signature) → s.cmp ≡ C.cmp → 1 ≤ s.max_sets →
        (cs : List (Call C C.Signature)) (c : Call C C.Signature) (p : C) →
        is_busy_in (world_after s (c ∷ cs)) p ≡ is_busy_after s c
        (was_granted (event_of s cs c)) p (is_busy_in (world_after s cs) p) }
{}

/// By a law of directories, a peer whose reservation was granted is connected by a `Connect` of it
/// that directly follows, whoever dialled. For a node, its reply is `Reply::Connect` if the reply
/// to the `Listen` or the `Dial` before is that it was granted.
pub fn granted_are_connected<C: PublicKey>()
    ensures may { (s : Settings C C.Signature) → s.cmp ≡ C.cmp → 1 ≤ s.max_sets →
        (cs : List (Call C C.Signature)) (c : Call C C.Signature) (p : C) →
        reserved_by c ≡ Some p → was_granted (event_of s cs c) ≡ true →
        may_connect s (world_after s (c ∷ cs)) p ≡ true }
    ensures listened { (m : Made C C.Signature) → m.directory.cmp ≡ C.cmp →
        1 ≤ m.directory.max_sets → (cs : List (Call C C.Signature)) (p : C) (t draw : ℕ)
        (dialer : Bool) (r : Reply C C.Signature) → let c = Listen p t draw in
        IsStepAnswer m cs c (Reply.Listen true) →
        IsStepAnswer m (c ∷ cs) (Connect p dialer) r → r ≡ Reply.Connect }
    ensures dialled { (m : Made C C.Signature) → m.directory.cmp ≡ C.cmp →
        1 ≤ m.directory.max_sets → (cs : List (Call C C.Signature)) (p : C) (t draw : ℕ)
        (dialer : Bool) (r : Reply C C.Signature) → let c = Dial p t draw in
        IsStepAnswer m cs c (Reply.Dial true) →
        IsStepAnswer m (c ∷ cs) (Connect p dialer) r → r ≡ Reply.Connect }
{}

/// By a law of directories, infos have nothing to do with the times of cooldowns and blocks. An
/// update with infos that was accepted leaves the retained sets, and of each peer its block, its
/// cooldown, how it stands, and what is held of it. A query changes nothing, whatever its time.
pub fn infos_leave_moments<C: PublicKey>()
    ensures updates { (s : Settings C C.Signature) → s.cmp ≡ C.cmp → 1 ≤ s.max_sets →
        (cs : List (Call C C.Signature)) (infos : List (Info C C.Signature)) →
        LeavesMoments (world_after s cs) (world_after s (Update infos ∷ cs)) }
    ensures asks { (s : Settings C C.Signature) → s.cmp ≡ C.cmp → 1 ≤ s.max_sets →
        (cs : List (Call C C.Signature)) (question : Question C) →
        world_after s (Ask question ∷ cs) ≡ world_after s cs }
{}

/// By a law of directories, the frame of [`Node::ask_all`](crate::node::Node::ask_all) asks for
/// all: a directory that retains a set of the index with the same primary peers answers its bits
/// with every info of them that it may share at the time, except the asker's.
pub fn full_questions_bring_all<C: PublicKey>()
    ensures { (a s : Settings C C.Signature) (v w : World C C.Signature) (place : ℕ)
        (asked kept : SetAt C) (bits : BitVec) (t : ℕ) →
        set_at_place a v place ≡ Some asked → full_bit_vec_in a v place ≡ Some bits →
        set_with_index s w bits.index ≡ Some kept → kept.primary ≡ asked.primary →
        infos_for s w bits.index bits.bits t ≡
        Some (all_infos_for a s w (epoch_millis t) kept.primary) }
{}
