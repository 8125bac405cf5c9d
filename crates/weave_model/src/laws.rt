//! The laws of journals and weavings.
ghost use Rattle.std.specs.Prelude.{◌≡◌, ℕ, List, ◌++◌, map, length, Some, slice_get};
ghost use Rattle.model_router.specs.Givens.{Given};
ghost use Rattle.model_router.specs.Configs.{Config};
ghost use Rattle.model_router.specs.Routers.{Circuit, Router};
ghost use Rattle.model_router.specs.Events.{Event};
ghost use Rattle.model_router.specs.Steps.{step};
ghost use Rattle.model_router.specs.Starts.{start};
ghost use Rattle.model_network.specs.declared.end.End.{End};
ghost use Rattle.model_network.specs.Links.{IsWired};
ghost use Rattle.model_network.specs.Runs.{Happening};
ghost use Rattle.weave_core.specs.declared.moves.Move.{Move as CoreMove};
ghost use Rattle.weave_core.specs.Codes.{IsCode};
ghost use Rattle.weave_core.specs.Scenes.{Scene as CoreScene, IsEnd};
ghost use Rattle.weave_model.specs.Entries.{Entry};
ghost use Rattle.weave_model.specs.Faults.{AreGood, Fault, IsFirstFault, AreGoodAll};
ghost use Rattle.weave_model.specs.Begins.{started_with, IsChange};
ghost use Rattle.weave_model.specs.Weavings.{Move, Scene, track_of, IsDone, IsWeaving, IsFarthest};
ghost use Rattle.weave_model.specs.Coding.{Matches, IsGoodTrack, turn_for};

use weave_core::laws::round_laws;

/// A journal has at most one first fault, and none where all its entries are without one.
pub fn fault_laws()
    ensures once { (given : Given) (r : Router) (es : List Entry) (before other : ℕ)
        (fault second : Fault) → IsFirstFault given r es before fault
        → IsFirstFault given r es other second → (before ≡ other) × (fault ≡ second) }
    ensures none { (given : Given) (r : Router) (es : List Entry) (before : ℕ) (fault : Fault)
        → AreGood given r es → IsFirstFault given r es before fault → ⊥ }
{}

/// Changes before all other events leave a router at its start with the changed configuration; and
/// journals without faults are a track without faults.
pub fn begin_laws()
    ensures changed { (given : Given) (config : Config) (boot : ℕ) (circuits : List Circuit)
        (event : Event) → IsChange event → (step given (start config boot circuits) event).router
        ≡ started_with config boot circuits event }
    ensures track { (given : Given) (r : Router) (js : List (List Entry)) → AreGoodAll given r js
        → IsGoodTrack given r (track_of js) }
{}

/// Where the rounds by letters end, a front of the network ends whose events are the turns of the
/// rounds, and no front goes further. As many moves are left there as by letters.
pub fn end_laws()
    ensures end { (given : Given) (code : ℕ → List ℕ → ℕ) (count : ℕ) (links : List (List End))
        (a : Scene) (s t : CoreScene) → IsCode code count → IsWired a.net
        → Matches given code count links a s → IsEnd s t → (hs : List Happening) × (b : Scene)
        × (t.told.turns ≡ s.told.turns ++ map turn_for hs)
        × Matches given code count links b t × IsFarthest given hs a b }
    ensures left { (given : Given) (code : ℕ → List ℕ → ℕ) (count : ℕ) (links : List (List End))
        (b : Scene) (t : CoreScene) (router : ℕ) (left : List Move) (moves : List CoreMove)
        → Matches given code count links b t → slice_get b.tracks router ≡ Some left
        → slice_get t.tracks router ≡ Some moves → length left ≡ length moves }
{
    round_laws();
}

/// Where there is a weaving, a front that goes farthest leaves nothing. So where it leaves something,
/// there is no weaving.
pub fn stuck_laws()
    ensures { (given : Given) (hs gs : List Happening) (a b c : Scene) → IsFarthest given hs a b
        → IsWeaving given gs a c → IsDone b }
{}
