//! Laws of the verification results that a node is given for the signatures of infos.

ghost use Rattle.std.specs.Prelude.{◌≡◌, ℕ, Bool, true, false, List, [], ◌∷◌, ◌++◌, Some};
ghost use Rattle.std.specs.List.{AllByRecursion};
ghost use Rattle.p2p_tracker.specs.Calls.{Call};
ghost use Rattle.p2p_discovery.specs.declared.discovery.Info.{Info};
ghost use Rattle.p2p_discovery.specs.Judgement.{Judge, refusal_if, refusal, list_refusal_by};
ghost use Rattle.p2p_discovery.specs.Judgement.{list_refusal, judged_before, to_verify};
ghost use Rattle.p2p_discovery.specs.Judgement.{is_signed_in};
ghost use Rattle.p2p_discovery.specs.declared.discovery.Error.TheVariants.{InvalidSignature};
ghost use Rattle.p2p_directory.specs.Received.{Wire, Standing, first_verdict, verdicts_of};
ghost use Rattle.p2p_directory.specs.Received.{received_by, received_at};
ghost use Rattle.p2p_directory.specs.Nodes.{Made, NodeView, IsReceivedAt, given_verdicts};
ghost use Rattle.p2p_directory.specs.Nodes.{standing_in, standing_of, AnswersFrame};
ghost use Rattle.p2p_directory.specs.Run.{world_after};
ghost use Rattle.p2p_directory.specs.Laws.Verdicts.{judge_with, wire_with, standing_with};
ghost use Rattle.p2p_directory.specs.Laws.Verdicts.{AreToldBy, AreToldOf};
ghost use Rattle.p2p_directory.specs.declared.node.received.Received.{Received};

use p2p_discovery::codec::PublicKey;

/// By a law of verification, just the signatures decide that `count_to_verify` counts. Whatever
/// predicate says which signatures are valid, its results for these infos, up to the first invalid
/// one, give at that time the same error as the predicate itself, and all other results may be
/// anything. And each of these signatures is needed: if it is invalid, and those before it are
/// valid, that is the error. docs/PROOFS.md has this below "Verification results".
pub fn verdicts_suffice<C: PublicKey>()
    ensures list { (verifies : C → List ℕ → List ℕ → C.Signature → Bool)
        (judge : Judge C C.Signature) (now : ℕ) (infos : List (Info C C.Signature))
        (verdicts : List Bool) →
        AreToldBy verifies judge.namespace (to_verify judge now infos) verdicts →
        list_refusal_by judge verdicts now infos
        ≡ list_refusal (judge_with verifies judge) now infos }
    ensures needed { (verifies : C → List ℕ → List ℕ → C.Signature → Bool)
        (judge : Judge C C.Signature) (now : ℕ) (infos before : List (Info C C.Signature))
        (i : Info C C.Signature) (behind : List (Info C C.Signature)) →
        to_verify judge now infos ≡ before ++ i ∷ behind →
        AllByRecursion (λ x. is_signed_in verifies judge.namespace x ≡ true) before →
        is_signed_in verifies judge.namespace i ≡ false →
        list_refusal (judge_with verifies judge) now infos ≡ Some InvalidSignature }
    ensures one { (verifies : C → List ℕ → List ℕ → C.Signature → Bool)
        (judge : Judge C C.Signature) (now : ℕ) (info : Info C C.Signature)
        (verdicts : List Bool) →
        AreToldBy verifies judge.namespace (judged_before judge now (info ∷ [])) verdicts →
        refusal_if judge (first_verdict verdicts) now info
        ≡ refusal (judge_with verifies judge) now info }
{}

/// By a law of verification, a frame that a node receives by such results is received as by the
/// predicate: it returns the same, and applies the same infos. docs/PROOFS.md has this below
/// "Verification results".
pub fn judged_by<C: PublicKey>()
    ensures outcome { (verifies : C → List ℕ → List ℕ → C.Signature → Bool)
        (wire : Wire C C.Signature) (node : Standing C C.Signature) (frame : List ℕ) (now : ℕ)
        (verdicts : List Bool) → AreToldOf verifies wire node frame now verdicts →
        received_by wire (λ _. verdicts) node frame now
        ≡ received_at (wire_with verifies wire) (standing_with verifies node) frame now }
    ensures seen { (verifies : C → List ℕ → List ℕ → C.Signature → Bool)
        (wire : Wire C C.Signature) (frame : List ℕ) (now : ℕ) (verdicts : List Bool)
        (r : Received C C.Signature) (v v2 : NodeView C C.Signature) →
        AreToldOf verifies wire (standing_of C.cmp wire v) frame now verdicts →
        AnswersFrame C.cmp wire (given_verdicts verdicts) frame now r v v2 →
        AnswersFrame C.cmp (wire_with verifies wire) verdicts_of frame now r v v2 }
    ensures received { (verifies : C → List ℕ → List ℕ → C.Signature → Bool)
        (m : Made C C.Signature) (wire : Wire C C.Signature) (calls : List (Call C C.Signature))
        (frame : List ℕ) (now : ℕ) (verdicts : List Bool) (r : Received C C.Signature)
        (v : NodeView C C.Signature) →
        AreToldOf verifies wire (standing_in m wire (world_after m.directory calls)) frame now
        verdicts →
        IsReceivedAt m wire calls (given_verdicts verdicts) frame now r v →
        IsReceivedAt m (wire_with verifies wire) calls verdicts_of frame now r v }
    ensures given { (verifies : C → List ℕ → List ℕ → C.Signature → Bool)
        (m : Made C C.Signature) (wire : Wire C C.Signature) (calls : List (Call C C.Signature))
        (frame : List ℕ) (now : ℕ) (verdicts : List Bool) (r : Received C C.Signature)
        (v : NodeView C C.Signature) →
        AreToldOf verifies wire (standing_in m wire (world_after m.directory calls)) frame now
        verdicts →
        IsReceivedAt m (wire_with verifies wire) calls verdicts_of frame now r v →
        IsReceivedAt m wire calls (given_verdicts verdicts) frame now r v }
{}
