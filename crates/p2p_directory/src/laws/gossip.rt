//! Laws of the frames and the exchanges of nodes.

ghost use Rattle.std.specs.Prelude.{◌≡◌, ◌<◌, ◌^◌, ℕ, Bool, true, List, []};
ghost use Rattle.p2p_tracker.specs.Calls.{Call};
ghost use Rattle.p2p_discovery.specs.Info.{IsInfo, IsKeyed};
ghost use Rattle.p2p_directory.specs.Received.{Wire, Standing, verdicts_of, wire_of};
ghost use Rattle.p2p_directory.specs.Nodes.{Made, NodeView, IsReceivedAt};
ghost use Rattle.p2p_directory.specs.Exchange.{ExchangeOutcome, exchanged_at};
ghost use Rattle.p2p_directory.specs.Exchange.{CanBeSpelled, IsCarried};
ghost use Rattle.p2p_directory.specs.Laws.Gossip.{IsMade};
ghost use Rattle.p2p_directory.specs.Laws.LateFrames.{TakesLateAt};
ghost use Rattle.p2p_directory.specs.declared.node.received.Received.{Received};
ghost use Rattle.p2p_directory.specs.declared.node.setup.Setup.{Setup};
ghost use Rattle.p2p_directory.specs.Network.{is_node, OfNetwork, StandAfter, calls_at};
ghost use Rattle.p2p_directory.specs.Laws.ExchangeFrames.{AreCounted, done_by};
ghost use Rattle.p2p_directory.specs.Laws.InTurn.{Steps, AreServedInTurn, not_refused};
ghost use Rattle.p2p_directory.specs.Laws.InTurn.{IsNetworkRun};
ghost use Rattle.p2p_directory.specs.Laws.Network.{AreMade, OfAll, OfAnswers, AtEachPoint};
ghost use Rattle.p2p_directory.specs.Laws.Network.{PointLaws, Provenance, GivesSigned, HoldSigned};
ghost use Rattle.p2p_directory.specs.Laws.Network.{OnlyGetNewer, Isolate, Reorder, OfEachReply};
ghost use Rattle.p2p_directory.specs.Laws.Network.{BringsWanted, LeavesOtherNodes, TakesGreeting};
ghost use Rattle.p2p_directory.specs.Laws.Network.{TakesFrame, AreWritten, RepliesInfos};

use p2p_discovery::codec::PublicKey;

/// By a law of gossip, infos may come late: a frame of them is applied by a node, whatever was done
/// to it before, and whatever predicate says which signatures are valid. The premises are in
/// docs/PROOFS.md, below "Late and repeated frames".
pub fn infos_may_come_late<C: PublicKey>()
    ensures { (verifies : C → List ℕ → List ℕ → C.Signature → Bool) →
        (m : Made C C.Signature) → IsMade C.cmp m →
        (calls : List (Call C C.Signature)) (frame : List ℕ) (now : ℕ) (r : Received C C.Signature)
        (v : NodeView C C.Signature) →
        let wire = wire_of verifies C.FixedBytes C.Signature.FixedBytes in
        IsReceivedAt m wire calls verdicts_of frame now r v →
        TakesLateAt wire C.IsValue C.Signature.IsValue m calls frame now r }
{}

/// By a law of gossip, an exchange is carried as bytes: it comes to what its three frames come to,
/// and they to nothing else, whatever predicate says which signatures are valid. docs/PROOFS.md has
/// this below "Exchanges".
pub fn exchanges_are_carried<C: PublicKey>()
    ensures carried { (verifies : C → List ℕ → List ℕ → C.Signature → Bool) →
        let wire = wire_of verifies C.FixedBytes C.Signature.FixedBytes in
        (asker replier : Standing C C.Signature) (place s t : ℕ) →
        CanBeSpelled C.IsValue C.Signature.IsValue asker replier place t →
        IsCarried wire asker replier place s t (exchanged_at asker replier place s t) }
    ensures only { (verifies : C → List ℕ → List ℕ → C.Signature → Bool) →
        let wire = wire_of verifies C.FixedBytes C.Signature.FixedBytes in
        (asker replier : Standing C C.Signature) (place s t : ℕ) →
        CanBeSpelled C.IsValue C.Signature.IsValue asker replier place t →
        (o : ExchangeOutcome C C.Signature) → IsCarried wire asker replier place s t o →
        o ≡ exchanged_at asker replier place s t }
{}

/// By a law of gossip, nodes that are driven each by its own calls are a network: what is done to
/// them in turn, from their start, is a run of one. The calls refused for memory count as not made.
/// So the laws of gossip hold of them, over the wire over which they receive frames. docs/PROOFS.md
/// has this below "Nodes and gossip".
pub fn nodes_are_a_network<C: PublicKey>()
    ensures { (wire : Wire C C.Signature) (setups : List (Setup C C.Signature))
        (steps : Steps C C.Signature) (vs vs2 : List (NodeView C C.Signature)) →
        OfNetwork C.cmp setups (λ size node. StandAfter wire size node [] vs →
        AreServedInTurn C.cmp wire steps vs vs2 →
        IsNetworkRun wire size node (not_refused steps) vs2) }
{}

/// By a law of gossip, frames are an exchange: an `Ask` of one node, the frame at another and its
/// reply at the first, with no call of either between, count as one `Exchange`, with the outcome
/// that they came to. However many are counted, a run stays a run, and each node accepted the same
/// calls. So the laws of exchanges hold of them. docs/PROOFS.md has this below "Exchanges".
pub fn frames_are_an_exchange<C: PublicKey>()
    ensures run { (verifies : C → List ℕ → List ℕ → C.Signature → Bool) →
        let wire = wire_of verifies C.FixedBytes C.Signature.FixedBytes in
        (size : ℕ) (node : ℕ → Made C C.Signature) (n : ℕ) (steps counted : Steps C C.Signature) →
        AreCounted wire size node C.IsValue C.Signature.IsValue n steps counted →
        (vs : List (NodeView C C.Signature)) → IsNetworkRun wire size node steps vs →
        IsNetworkRun wire size node counted vs }
    ensures calls { (wire : Wire C C.Signature) (size : ℕ) (node : ℕ → Made C C.Signature) (n : ℕ)
        (steps counted : Steps C C.Signature) →
        AreCounted wire size node C.IsValue C.Signature.IsValue n steps counted → (i : ℕ) →
        calls_at wire size node (done_by wire size node counted) i
        ≡ calls_at wire size node (done_by wire size node steps) i }
{}

/// The laws of gossip of any number of nodes, by the replies to what is done to them from their
/// start, in words in docs/PROOFS.md. Any predicate may say which signatures are valid, not only
/// [`PublicKey::verify`]. Laws that have fewer premises than all at a point are said by themselves,
/// too. Infos, newer, isolation, order and others are laws of the definitions: they hold whatever
/// the replies. The others [`run_network`](crate::node::run_network) promises.
pub fn gossip_of_a_network<C: PublicKey>()
    ensures at_each_point { (wire : Wire C C.Signature) (size : ℕ) (node : ℕ → Made C C.Signature) →
        AreMade wire size node C.cmp → OfAnswers wire size node
        (AtEachPoint wire size node (PointLaws wire size node)) }
    ensures provenance { (wire : Wire C C.Signature) (size : ℕ) (node : ℕ → Made C C.Signature) →
        OfAnswers wire size node (AtEachPoint wire size node (Provenance wire size node)) }
    ensures given { (wire : Wire C C.Signature) (size : ℕ) (node : ℕ → Made C C.Signature) →
        OfAnswers wire size node (AtEachPoint wire size node (GivesSigned wire size node)) }
    ensures infos { (wire : Wire C C.Signature) (size : ℕ) (node : ℕ → Made C C.Signature) →
        OfAll wire size node (AtEachPoint wire size node (HoldSigned wire size node)) }
    ensures newer { (wire : Wire C C.Signature) (size : ℕ) (node : ℕ → Made C C.Signature) →
        AreMade wire size node C.cmp → OfAll wire size node
        (AtEachPoint wire size node (OnlyGetNewer wire size node)) }
    ensures isolation { (wire : Wire C C.Signature) (size : ℕ) (node : ℕ → Made C C.Signature) →
        AreMade wire size node C.cmp → OfAll wire size node
        (AtEachPoint wire size node (Isolate wire size node)) }
    ensures order { (wire : Wire C C.Signature) (size : ℕ) (node : ℕ → Made C C.Signature) →
        AreMade wire size node C.cmp → OfAll wire size node
        (AtEachPoint wire size node (Reorder wire size node)) }
    ensures exchanges { (wire : Wire C C.Signature) (size : ℕ) (node : ℕ → Made C C.Signature) →
        AreMade wire size node C.cmp → OfAnswers wire size node
        (OfEachReply wire size node (BringsWanted wire size node)) }
    ensures others { (wire : Wire C C.Signature) (size : ℕ) (node : ℕ → Made C C.Signature) →
        OfAll wire size node (OfEachReply wire size node (LeavesOtherNodes wire size node)) }
    ensures greetings { (verifies : C → List ℕ → List ℕ → C.Signature → Bool) →
        (size : ℕ) (node : ℕ → Made C C.Signature) →
        let wire = wire_of verifies C.FixedBytes C.Signature.FixedBytes in
        AreMade wire size node C.cmp →
        ((i : ℕ) → is_node wire size node i ≡ true → IsInfo (node i).directory.own) →
        ((i : ℕ) → is_node wire size node i ≡ true →
        IsKeyed C.IsValue C.Signature.IsValue (node i).directory.own) →
        OfAnswers wire size node (OfEachReply wire size node (TakesGreeting wire size node)) }
    ensures late { (verifies : C → List ℕ → List ℕ → C.Signature → Bool) →
        (size : ℕ) (node : ℕ → Made C C.Signature) →
        let wire = wire_of verifies C.FixedBytes C.Signature.FixedBytes in
        AreMade wire size node C.cmp → OfAnswers wire size node (OfEachReply wire size node
        (TakesFrame wire size node C.IsValue C.Signature.IsValue)) }
    ensures replies { (verifies : C → List ℕ → List ℕ → C.Signature → Bool) →
        (size : ℕ) (node : ℕ → Made C C.Signature) →
        let wire = wire_of verifies C.FixedBytes C.Signature.FixedBytes in
        AreMade wire size node C.cmp →
        ((i : ℕ) → is_node wire size node i ≡ true → (node i).limits.max_bit_vec < 2 ^ 32) →
        OfAnswers wire size node (λ done cs rs.
        AreWritten wire size node C.IsValue C.Signature.IsValue done cs rs →
        OfEachReply wire size node
        (RepliesInfos wire size node C.IsValue C.Signature.IsValue) done cs rs) }
{}
