//! Laws of elections: one system alone is elected, and it is whom the router's model elects.
ghost use Rattle.std.specs.Prelude.{◌≡◌, ℕ, List, ◌∷◌, map};
ghost use Rattle.isis_base.specs.declared.identifiers.SystemId.{SystemId};
ghost use Rattle.model_router.specs.Routers.{LanNeighbour};
ghost use Rattle.model_router.specs.Elections as model;
ghost use Rattle.model_router.specs.Numbers.{system_number};
ghost use Rattle.designated_is.specs.declared.candidate.Candidate.{Candidate};
ghost use Rattle.designated_is.specs.Numbers.{candidate_of};
ghost use Rattle.designated_is.specs.Greatest.{IsElected, plain, up_candidates};

/// One system alone is elected. Over oneself and the LAN neighbours in state Up it is whom the
/// router's model elects.
pub fn election_laws()
    ensures one { (candidates : List Candidate) (a b : SystemId)
        → IsElected candidates a → IsElected candidates b → system_number a ≡ system_number b }
    ensures model { (mine : Candidate) (others : List Candidate) (system : SystemId)
        (best : model.Candidate) (heard : List (ℕ × LanNeighbour))
        → candidate_of mine ≡ plain best → map candidate_of others ≡ up_candidates heard
        → IsElected (mine ∷ others) system
        → (model.elect best heard).system ≡ system_number system }
{}
