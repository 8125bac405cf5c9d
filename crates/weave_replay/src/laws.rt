//! What follows of what is told.
ghost use Rattle.std.specs.Prelude.{◌≡◌, ◌≢◌, ℕ, ◌+◌, List, length, map, Option, Some};
ghost use Rattle.std.specs.List.{AllByRecursion};
ghost use Rattle.circuit_threads.specs.declared.entry.Note.{Note};
ghost use Rattle.circuit_threads.specs.History.{IsHistory, entries};
ghost use Rattle.circuit_threads.specs.Shared.{KeepsPrefixes};
ghost use Rattle.model_router.specs.Places.{nth};
ghost use Rattle.model_router.specs.Routers.{Router};
ghost use Rattle.journal_text.specs.Written.{entry_read};
ghost use Rattle.router_core.specs.Events.{Fits};
ghost use Rattle.router_core.specs.Givens.{given};
ghost use Rattle.weave_model.specs.Entries.{Entry};
ghost use Rattle.weave_model.specs.Faults.{AreGood, AreGoodAll, opening};
ghost use Rattle.weave_replay.specs.Entries.{entry_of};
ghost use Rattle.weave_replay.specs.declared.fault.ReplayFault.{ReplayFault};
ghost use Rattle.weave_replay.specs.declared.journal.WovenJournal.{WovenJournal};
ghost use Rattle.weave_replay.specs.Replays.{journals_of, in_first_boot, no_memory, IsTold, AreReplayed};

use model_router::laws::adjacencies::step_bonds;
use router_desk::laws::reading_law;

/// One thing at most applies to journals, so where nothing wants memory what is told is what
/// applies.
pub fn told_laws()
    ensures once { (routers : List Router) (journals : List WovenJournal) (one two : ReplayFault)
        → IsTold routers journals one → IsTold routers journals two → one ≢ no_memory
        → two ≢ no_memory → one ≡ two }
    ensures none { (routers : List Router) (journals : List WovenJournal) (fault : ReplayFault)
        → AreReplayed routers journals → IsTold routers journals fault → fault ≡ no_memory }
{}

/// The n-th journal of a router opens in boot n; and where nothing applies, all journals of each
/// router are without a fault, one behind the other.
pub fn replay_laws()
    ensures boot { (first : Router) (before : List (List Entry))
        → (opening given (in_first_boot first) before).boot ≡ length before + 1 }
    ensures good { (routers : List Router) (journals : List WovenJournal) (router : ℕ)
        (first : Router) → AreReplayed routers journals → nth routers router ≡ Some first
        → AreGoodAll given (in_first_boot first) (journals_of router journals) }
{
    step_bonds();
}

/// The history of a router that threads share, whose events fitted it when it was shared, is a
/// journal without a fault: so what a daemon writes replays.
pub fn history_law()
    ensures { (start now : Router) (notes : List Note) (stop : Option ℕ)
        → IsHistory start now notes stop
        → AllByRecursion (λ e. Fits start e.event × KeepsPrefixes e.event) (entries notes)
        → AreGood given start (map (λ e. entry_of (entry_read e)) (entries notes)) }
{
    reading_law();
}
