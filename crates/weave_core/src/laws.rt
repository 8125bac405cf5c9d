//! What holds of rounds and fronts, and of the numbers of letters.
ghost use Rattle.std.specs.Prelude.{◌≡◌, ℕ, ◌++◌, List, length};
ghost use Rattle.weave_core.specs.declared.moves.Turn.{Turn};
ghost use Rattle.weave_core.specs.Scenes.{Scene, IsEnd};
ghost use Rattle.weave_core.specs.Fronts.{Front, IsFarther};
ghost use Rattle.weave_core.specs.Codes.{code_of, IsCode};

/// The turns of rounds are a front, and no front goes further on any track.
pub fn round_laws()
    ensures front { (a b : Scene) → IsEnd a b
        → (turns : List Turn) × (b.told.turns ≡ a.told.turns ++ turns) × Front turns a b }
    ensures farthest { (a b c : Scene) (turns : List Turn) → IsEnd a b → Front turns a c
        → IsFarther b c }
{}

/// A letter's number tells its link and octets, where they have a letter.
pub fn code_law()
    ensures { (wires : List (ℕ × List ℕ)) → IsCode (code_of wires) (length wires) }
{}
