//! Laws of sessions: what holds of one call after call, and of its frames, requests and answers.

ghost use Rattle.std.specs.Prelude.{◌≡◌, ◌<◌, ◌≤◌, ◌^◌, ℕ, Bool, List, [], ◌++◌, flat_map, Some};
ghost use Rattle.std.specs.Prelude.{Option};
ghost use Rattle.std.specs.List.{AllByRecursion};
ghost use Rattle.p2p_discovery.specs.Reading.{IsBytes};
ghost use Rattle.p2p_discovery.specs.declared.data.Data.{Data};
ghost use Rattle.p2p_discovery.specs.declared.discovery.Info.{Info};
ghost use Rattle.p2p_discovery.specs.declared.discovery.Payload.TheVariants as said;
ghost use Rattle.p2p_tracker.specs.Calls.{Call};
ghost use Rattle.p2p_tracker.specs.declared.directory.Metadata.{Metadata};
ghost use Rattle.p2p_directory.specs.declared.run.commands.Reply.{Reply};
ghost use Rattle.p2p_directory.specs.declared.node.received.Received.{Received};
ghost use Rattle.p2p_directory.specs.declared.node.received.Received.TheVariants as received;
ghost use Rattle.p2p_directory.specs.Run.{next, world_after};
ghost use Rattle.p2p_directory.specs.declared.node.setup.Setup.{Setup};
ghost use Rattle.p2p_directory.specs.Nodes.{NodeView, NodeStandsAt, made_of};
ghost use Rattle.p2p_directory.specs.Network.{OfNetwork};
ghost use Rattle.p2p_directory.specs.Laws.InTurn.{IsNetworkRun, Steps, not_refused};
ghost use Rattle.p2p_directory.specs.Laws.ExchangeFrames.{AreCounted};
ghost use Rattle.p2p_session.specs.Schemes.{wire};
ghost use Rattle.p2p_session.specs.Answers.{Tells, number, asked_bytes};
ghost use Rattle.p2p_session.specs.Given.{IsInfoOfKeys};
ghost use Rattle.p2p_session.specs.Frames.{Hears, held_answer};
ghost use Rattle.p2p_session.specs.Sessions.{IsFresh};
ghost use Rattle.p2p_session.specs.Requests.{ServesRequest, AreSpelledOnce};
ghost use Rattle.p2p_session.specs.Steps.{Step, Lead, AreRun};
ghost use Rattle.p2p_session.specs.Laws.{Served, Goes, AreServed, IsRun};
ghost use Rattle.p2p_session.specs.Networks.{SessionCall, AreInit, AreCalled, judged_wire};
ghost use Rattle.p2p_session.specs.Networks.{IsShortStep, AreVerdicts, IsSomething};
ghost use Rattle.p2p_session.specs.Networks.{network_steps};
ghost use Rattle.p2p_session.specs.Networks.{LawsOfGossip};
ghost use Rattle.p2p_session.specs.Refusals.{number_of};
ghost use Rattle.p2p_session.specs.Alike.{AreAlike, IsWhole, IsHeldOf, TellsOfCall, TellsOfFrame};
ghost use Rattle.p2p_session.specs.declared.refusal.Refusal.TheVariants.{Memory};
ghost use Rattle.p2p_session.specs.declared.session.Session.{Session};

use crate::scheme::Keys;
use p2p_discovery::codec::PublicKey;

/// By a law of sessions, a session is a run. Whatever is asked for is one step of its node: the
/// call or the frame that was asked for, with its reply encoded, or nothing, which a look or a
/// refusal is. There is no node before `init`, which makes it from what it was given. From there
/// on, the steps are the calls of a run with their replies: each is the answer at its point, and so
/// is that of each look; the node is at the point after the accepted calls, and what is promised of
/// a run holds of them. docs/PROOFS.md has this below "Call after call".
pub fn sessions_go_on<C: PublicKey>()
    ensures requested { (call : Served C C.Signature) (before after : Session C C.Signature) →
        ServesRequest ⟦<C as Keys>⟧.scheme call.asked call.out call.out2 before after call.n →
        Goes ⟦<C as Keys>⟧.scheme call before.node after.node }
    ensures steps { (given : Setup C C.Signature) (steps : List (Step C C.Signature)) (v v2 :
        NodeView C C.Signature) → NodeStandsAt (made_of C.cmp given) [] v → Lead
        ⟦<C as Keys>⟧.scheme steps v v2 → AreRun ⟦<C as Keys>⟧.scheme (made_of C.cmp given)
        steps v2 }
    ensures sessions { (calls : List (Served C C.Signature)) (new after : Session C C.Signature) (v
        : NodeView C C.Signature) → IsFresh new → AreServed ⟦<C as Keys>⟧.scheme calls new after →
        after.node ≡ Some v → IsRun ⟦<C as Keys>⟧.scheme calls v }
{}

/// By a law of sessions, a frame that is accepted as a message ends with it, so a host finds it by
/// its length. One that is accepted as a greeting encodes an info, and the key that is returned is
/// the one of this info.
pub fn frames_hold_what_is_returned<C: PublicKey>()
    ensures message { (verdicts : List Bool) (frame : List ℕ) (now : ℕ) (v v2 : NodeView C
        C.Signature) (d : Data) → IsBytes frame → Hears ⟦<C as Keys>⟧.scheme verdicts frame now v
        v2 (received.Data d) → (front : List ℕ) × (frame ≡ front ++ d.message) }
    ensures greeting { (verdicts : List Bool) (frame : List ℕ) (now : ℕ) (v v2 : NodeView C
        C.Signature) (key : C) → IsBytes frame → Hears ⟦<C as Keys>⟧.scheme verdicts frame now v
        v2 (received.Greeted key) → let w = wire ⟦<C as Keys>⟧.scheme in (i : Info C C.Signature)
        × (frame ≡ w.spelling (said.Greeting i)) × (key ≡ i.public_key) }
{}

/// By a law of requests, one request has one encoding for [`Session::call`](crate::Session::call):
/// its number, numbers and bytes. One that is refused since an argument can't be decoded may have
/// more.
pub fn requests_have_one_encoding<C: PublicKey>()
    ensures { AreSpelledOnce ⟦<C as Keys>⟧.scheme }
{}

/// By a law of answers, an answer decides the reply: the number that a call returned and what it
/// wrote leave one reply of a node to this call, and one to this frame, up to the form in which
/// durations and lists are held; one reservation of the peer that is asked about; and one list of
/// infos whose signatures are to be verified. This is said of answers that were written whole and
/// aren't want of memory, of values of their types, and of keys that have bytes. Where want of
/// memory is returned, the node's world is what it was. docs/PROOFS.md has this below
/// "Answers decide replies".
pub fn answers_decide_replies<C: PublicKey>()
    ensures calls { (call : Call C C.Signature) (r r2 : Reply C C.Signature) (out out2 : List ℕ) (n
        : ℕ) → 0 < C.SIZE → IsWhole out n → TellsOfCall ⟦<C as Keys>⟧.scheme call r out out2 n →
        TellsOfCall ⟦<C as Keys>⟧.scheme call r2 out out2 n → AreAlike r r2 }
    ensures frames { (frame : List ℕ) (r r2 : Received C C.Signature) (out out2 : List ℕ) (n : ℕ) →
        IsBytes frame → IsWhole out n → TellsOfFrame ⟦<C as Keys>⟧.scheme frame r out out2 n →
        TellsOfFrame ⟦<C as Keys>⟧.scheme frame r2 out out2 n → r ≡ r2 }
    ensures held { (peer : C) (held held2 : Option (Metadata C C.Signature)) (out out2 : List ℕ) (n
        : ℕ) → IsWhole out n → IsHeldOf peer held → IsHeldOf peer held2 → Tells (held_answer held)
        out out2 n → Tells (held_answer held2) out out2 n → held ≡ held2 }
    ensures to_verify { (count count2 : ℕ) (infos infos2 : List (Info C C.Signature)) →
        let k = ⟦<C as Keys>⟧.scheme in count < 2 ^ 64 → count2 < 2 ^ 64 →
        AllByRecursion (IsInfoOfKeys k) infos → AllByRecursion (IsInfoOfKeys k) infos2 →
        number count ++ flat_map (asked_bytes k) infos
        ≡ number count2 ++ flat_map (asked_bytes k) infos2 → (count ≡ count2) × (infos ≡ infos2) }
    ensures memory { (call : Call C C.Signature) (r : Reply C C.Signature) (out out2 : List ℕ) (told
        : TellsOfCall ⟦<C as Keys>⟧.scheme call r out out2 (number_of Memory)) → let s =
        told.m.directory in 1 ≤ s.max_sets → world_after s (next s told.before call r) ≡
        world_after s told.before }
    ensures memory_of_frames { (frame : List ℕ) (r : Received C C.Signature) (out out2 : List ℕ) →
        TellsOfFrame ⟦<C as Keys>⟧.scheme frame r out out2 (number_of Memory) → r ≡
        received.Memory }
{}

/// By a law of sessions, sessions that are called in turn are a network, in which any one predicate
/// says which signatures are valid: their calls, their frames, and the frames that they ask with
/// are a run of it. Other questions, and what was refused before the node was called, are left out,
/// and so are calls for which memory was refused. The verification results with a frame have to be
/// those of the predicate, for the infos that [`Session::check`](crate::Session::check) lists, up
/// to the first invalid one. So the laws of gossip hold, and those of exchanges where frames of
/// some are counted as such. Each call leads on, by [`sessions_go_on`], and is such a command or
/// left out. docs/PROOFS.md has this below "Nodes and gossip".
pub fn sessions_are_a_network<C: PublicKey>()
    ensures run { (verifies : C → List ℕ → List ℕ → C.Signature → Bool)
        (inits : List (Served C C.Signature)) (setups : List (Setup C C.Signature))
        (calls : List (SessionCall C C.Signature)) (vs vs2 : List (NodeView C C.Signature)) →
        let k = ⟦<C as Keys>⟧.scheme in let w = judged_wire k verifies in
        AreInit k inits setups vs → AreCalled k verifies calls vs vs2 →
        OfNetwork C.cmp setups (λ size node.
        IsNetworkRun w size node (not_refused (network_steps calls)) vs2) }
    ensures laws { (verifies : C → List ℕ → List ℕ → C.Signature → Bool)
        (inits : List (Served C C.Signature)) (setups : List (Setup C C.Signature))
        (calls : List (SessionCall C C.Signature)) (vs vs2 : List (NodeView C C.Signature))
        (n : ℕ) (counted : Steps C C.Signature) →
        let k = ⟦<C as Keys>⟧.scheme in let w = judged_wire k verifies in
        AreInit k inits setups vs → AreCalled k verifies calls vs vs2 →
        OfNetwork C.cmp setups (λ size node.
        AreCounted w size node C.IsValue C.Signature.IsValue n (not_refused (network_steps calls))
        counted → LawsOfGossip w size node C.IsValue C.Signature.IsValue counted) }
    ensures each { (verifies : C → List ℕ → List ℕ → C.Signature → Bool) (i : ℕ)
        (call : Served C C.Signature) (v v2 : NodeView C C.Signature) →
        let k = ⟦<C as Keys>⟧.scheme in (goes : Goes k call (Some v) (Some v2)) →
        IsShortStep goes.0 → AreVerdicts k verifies goes.0 v → IsSomething k verifies i call v v2 }
{}
