//! What follows for journals that replay, for those that are woven, and for those that aren't.
ghost use Rattle.std.specs.Prelude.{◌≡◌, ℕ, List, length, ◌≢◌};
ghost use Rattle.model_router.specs.Routers.{Router};
ghost use Rattle.model_network.specs.Networks.{Network};
ghost use Rattle.weave_core.specs.declared.moves.Move.{Move as CoreMove};
ghost use Rattle.weave_core.specs.Codes.{code_of};
ghost use Rattle.weave_core.specs.Scenes.{start as start_of};
ghost use Rattle.weave_model.specs.Coding.{Matches};
ghost use Rattle.weave_replay.specs.declared.journal.WovenJournal.{WovenJournal};
ghost use Rattle.weave_replay.specs.Replays.{AreReplayed};
ghost use Rattle.weave.specs.Begins.{begin, HaveAsMany, IsAtStart};
ghost use Rattle.weave.specs.Coded.{HavePortsAll, AreAllCoded};
ghost use Rattle.router_core.specs.Givens.{given};
ghost use Rattle.model_network.specs.Runs.{Happening, run};
ghost use Rattle.network_lab.specs.declared.event.LabEvent.{LabEvent};
ghost use Rattle.network_lab.specs.LabNets.{LabNet, StandsFor};
ghost use Rattle.weave_model.specs.Weavings.{Scene, IsWeaving};
ghost use Rattle.weave.specs.declared.fault.WeaveFault.{WeaveFault};
ghost use Rattle.weave.specs.declared.fault.WeaveFault.TheVariants.{Stuck};
ghost use Rattle.weave.specs.Faults.{no_memory, IsToldOf};
ghost use Rattle.weave.specs.Woven.{happenings_of, IsWoven};

use model_router::laws::adjacencies::step_bonds;
use weave_model::laws::begin_laws;
use weave_replay::laws::{replay_laws, told_laws};

/// Where journals replay, the circuits of their entries have links. And a network at its start
/// matches the tracks by letters, of which none was sent.
pub fn coding_laws()
    ensures ports { (routers : List Router) (rows : List (List ℕ)) (journals : List WovenJournal)
        → AreReplayed routers journals → length rows ≡ length routers → HaveAsMany routers rows
        → HavePortsAll rows journals }
    ensures begin { (routers : List Router) (rows : List (List ℕ)) (journals : List WovenJournal)
        (wires : List (ℕ × List ℕ)) (tracks : List (List CoreMove)) (net : Network)
        → AreReplayed routers journals → AreAllCoded wires rows journals tracks
        → IsAtStart routers rows net → Matches given (code_of wires) (length wires) net.links
        (begin net journals) (start_of tracks) }
{
    step_bonds();
    begin_laws();
    replay_laws();
}

/// Where `Stuck` is told, no schedule is a weaving. Of journals at most one thing is told, where
/// nothing wants memory: two faults of them are one, and where a schedule is woven there is none. The
/// network behind a schedule is the one in which its events were run.
pub fn weave_laws()
    ensures stuck { (net : Network) (journals : List WovenJournal) (journal entry : ℕ)
        (hs : List Happening) (s : Scene) → IsToldOf net journals (Stuck journal entry)
        → IsWeaving given hs (begin net journals) s → ⊥ }
    ensures once { (net : Network) (journals : List WovenJournal) (one two : WeaveFault)
        → IsToldOf net journals one → IsToldOf net journals two → one ≢ no_memory
        → two ≢ no_memory → one ≡ two }
    ensures none { (net : Network) (journals : List WovenJournal) (schedule : List LabEvent)
        (after : LabNet) (fault : WeaveFault) → IsWoven net journals schedule after
        → IsToldOf net journals fault → fault ≡ no_memory }
    ensures run { (net : Network) (journals : List WovenJournal) (schedule : List LabEvent)
        (after : LabNet) → IsWoven net journals schedule after
        → StandsFor (run given net (happenings_of schedule)) after }
{
    told_laws();
}
