//! What follows for texts whose journals have a weaving, and for what is written of a schedule.
ghost use Rattle.std.specs.Prelude.{◌≡◌, ℕ, ◌+◌, true, List, ◌++◌, length, Result, Ok};
ghost use Rattle.std.specs.List.{AllByRecursion};
ghost use Rattle.network_lab.specs.declared.event.LabEvent.{LabEvent};
ghost use Rattle.network_lab.specs.LabNets.{Seen};
ghost use Rattle.lab_script.specs.declared.reason.ScriptFault.{ScriptFault};
ghost use Rattle.lab_script.specs.declared.script.Script.TheVariants.{Lab};
ghost use Rattle.lab_script.specs.LabScripts.{LabScript, router_names, link_names};
ghost use Rattle.lab_script.specs.Scripts.{script_of};
ghost use Rattle.weave.specs.declared.fault.WeaveFault.{WeaveFault};
ghost use Rattle.lab_text.specs.LabClaims.{start_of, script_events};
ghost use Rattle.weave.specs.Faults.{no_memory};
ghost use Rattle.weave.specs.Woven.{happenings_of};
ghost use Rattle.weave_text.specs.Weaves.{HasNoWeaving, IsWeavable};
ghost use Rattle.weave_text.specs.Ahead.{is_ahead, told_in};
ghost use Rattle.weave_text.specs.Lines.{IsUnbroken};
ghost use Rattle.weave_text.specs.Named.{naming_in};
ghost use Rattle.weave_text.specs.ReadBack.{HasEvent, with_schedule, AreAlike, AreNamed, HasSchedule, IsReadAs};
ghost use Rattle.weave_text.specs.Weavings.{Weaving, script_in, weaving_of};
ghost use Rattle.weave_text.specs.Written.{woven_text};

use weave::laws::weave_laws;
use weave_replay::laws::told_laws;

/// Where journals have a weaving, nothing but want of memory is told against one.
pub fn weavable_law()
    ensures { (said : Result Weaving ScriptFault) (fault : WeaveFault) → IsWeavable said
        → HasNoWeaving said fault → fault ≡ no_memory }
{
    weave_laws();
    told_laws();
}

/// Where setup and change lines are read as a lab script, those that aren't skipped are read as the same script but for the numbers of
/// its event lines.
pub fn told_law()
    ensures { (lines : List (List ℕ)) (script : LabScript) → AllByRecursion IsUnbroken lines
        → AllByRecursion (λ line. is_ahead line ≡ true) lines → script_in lines ≡ Ok (Lab script)
        → (base : LabScript) × (script_in (told_in lines) ≡ Ok (Lab base)) × AreAlike script base }
{}

/// The routers and links of a script of setup and change lines have names, by which they are found.
pub fn names_law()
    ensures { (lines : List (List ℕ)) (script : LabScript) → AllByRecursion IsUnbroken lines
        → AllByRecursion (λ line. is_ahead line ≡ true) lines → script_in lines ≡ Ok (Lab script)
        → AreNamed (router_names script.routers) × AreNamed (link_names script.links) }
{}

/// Where lines are read as a lab script that names what the events of a schedule are of, the text that is written of these lines and
/// the schedule is read as that script with an event line more for each event. That script begins with the same network, and its
/// events are those of the lines, and then those of the schedule.
pub fn written_law()
    ensures read { (told : List (List ℕ)) (base : LabScript) (s : Seen) (schedule : List LabEvent)
        → AllByRecursion IsUnbroken told → script_in told ≡ Ok (Lab base)
        → AllByRecursion (HasEvent base s) schedule
        → script_of (woven_text told (naming_in (Lab base)) s schedule)
        ≡ Ok (Lab (with_schedule base (2 + length told) schedule)) }
    ensures start { (base : LabScript) (number : ℕ) (schedule : List LabEvent)
        → start_of (with_schedule base number schedule) ≡ start_of base }
    ensures events { (base : LabScript) (number : ℕ) (schedule : List LabEvent)
        → script_events (with_schedule base number schedule)
        ≡ script_events base ++ happenings_of schedule }
{}

/// Where the script of a weaving's setup and change lines names what the events of a schedule are of, the text that is written of both is
/// read as a lab script: it begins with the network of the setup lines, and its events are those of the change lines, and then those
/// of the schedule.
pub fn woven_law()
    ensures { (input : List ℕ) (said : Weaving) (s : Seen) (schedule : List LabEvent)
        → weaving_of input ≡ Ok said → HasSchedule said.script s schedule
        → IsReadAs said schedule (woven_text said.told (naming_in said.script) s schedule) }
{}
