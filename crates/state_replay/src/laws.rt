//! What follows for the journal of a daemon: functions without a body, whose contracts are the laws.
ghost use Rattle.std.specs.Prelude.{◌≡◌, ℕ, List, ◌∷◌, ◌++◌, Option, map, take};
ghost use Rattle.std.specs.List.{AllByRecursion};
ghost use Rattle.circuit_threads.specs.declared.entry.Note.{Note};
ghost use Rattle.circuit_threads.specs.declared.entry.JournalEntry.{JournalEntry};
ghost use Rattle.circuit_threads.specs.declared.entry.Note.TheVariants.{Made};
ghost use Rattle.circuit_threads.specs.History.{IsHistory, entries};
ghost use Rattle.circuit_threads.specs.History as shared;
ghost use Rattle.circuit_threads.specs.JournalText.{journal_text};
ghost use Rattle.circuit_threads.specs.Shared.{KeepsPrefixes};
ghost use Rattle.journal_text.specs.Written.{IsInRange, entry_read};
ghost use Rattle.model_router.specs.Routers.{Router};
ghost use Rattle.router_core.specs.Events.{Fits};
ghost use Rattle.router_core.specs.Givens.{given};
ghost use Rattle.weave_model.specs.Entries.{replay};
ghost use Rattle.state_replay.specs.declared.fault.StateFault.{StateFault};
ghost use Rattle.state_replay.specs.Inputs.{head};
ghost use Rattle.state_replay.specs.Replays.{IsReplayed, IsStopped, modelled};

use journal_text::laws::{journal_law, numbered_law};
use weave_replay::laws::history_law;

/// The journal of a router that threads share, cut anywhere behind its head, is never refused, unless a line is too long; and
/// after its first entries the router is what they made of the shared router.
pub fn state_laws()
    ensures taken { (first now : Router) (notes : List Note) (stop : Option ℕ)
        (journal more : List ℕ) (line most : ℕ) (why : StateFault)
        → IsHistory first now notes stop
        → AllByRecursion (λ e. Fits first e.event × KeepsPrefixes e.event) (entries notes)
        → AllByRecursion IsInRange (entries notes)
        → journal_text (entries notes) ≡ head ++ 10 ∷ (journal ++ more)
        → IsStopped first journal line most why → why ≡ StateFault.TooLong }
    ensures state { (first now r : Router) (notes : List Note) (stop : Option ℕ)
        (journal more rest : List ℕ) (done : ℕ)
        → IsHistory first now notes stop
        → AllByRecursion IsInRange (entries notes)
        → journal_text (entries notes) ≡ head ++ 10 ∷ (journal ++ more)
        → IsReplayed first r journal rest done
        → r ≡ replay given first (take done (modelled (map entry_read (entries notes)))) }
{
    history_law();
    journal_law();
    numbered_law();
}

/// The entries that the run of a daemon is known by, each with the reply that the replay of all gives, are those of a history: so
/// the laws above hold of its journal.
pub fn run_law()
    ensures { (first : Router) (es : List JournalEntry)
        → (shared.replay (shared.opening first) (map Made es)).lines ≡ map shared.line_of es
        → ((now : Router) × (stop : Option ℕ) × IsHistory first now (map Made es) stop
        × (entries (map Made es) ≡ es)) }
{}
