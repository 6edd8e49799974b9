//! Laws of the replies of a run.

ghost use Rattle.std.specs.Prelude.{◌≡◌, ◌≤◌, ℕ, List, []};
ghost use Rattle.p2p_tracker.specs.Calls.{Settings, Call};
ghost use Rattle.p2p_directory.specs.declared.run.commands.Reply.{Reply};
ghost use Rattle.p2p_directory.specs.Run.{AreAnswers};
ghost use Rattle.p2p_directory.specs.Laws.Run.{LawsOfGrants, LawsOfRun};
ghost use Rattle.p2p_directory.specs.Laws.OrderRuns.{KeepOrder};
ghost use Rattle.p2p_directory.specs.Laws.BoundRuns.{KeepBound};

use p2p_discovery::codec::PublicKey;

/// What the replies to a run from its start say of each other, as [`run`](crate::run::run) promises
/// it; docs/PROOFS.md has it in words. Grants, order and bounds are also said by themselves, since
/// they have fewer premises.
pub fn laws_of_a_run<C: PublicKey>()
    ensures laws { (s : Settings C C.Signature) → s.cmp ≡ C.cmp → 1 ≤ s.max_sets →
        (cs : List (Call C C.Signature)) (rs : List (Reply C C.Signature)) →
        AreAnswers s [] cs rs → LawsOfRun s cs rs }
    ensures grants { (s : Settings C C.Signature) → s.cmp ≡ C.cmp →
        (cs : List (Call C C.Signature)) (rs : List (Reply C C.Signature)) →
        AreAnswers s [] cs rs → LawsOfGrants s cs rs }
    ensures order { (s : Settings C C.Signature) → 1 ≤ s.max_sets →
        (cs : List (Call C C.Signature)) (rs : List (Reply C C.Signature)) →
        AreAnswers s [] cs rs → KeepOrder s [] cs rs }
    ensures bounds { (s : Settings C C.Signature) → s.cmp ≡ C.cmp →
        (n : ℕ) (cs : List (Call C C.Signature)) (rs : List (Reply C C.Signature)) →
        AreAnswers s [] cs rs → KeepBound s n [] cs rs }
{}
