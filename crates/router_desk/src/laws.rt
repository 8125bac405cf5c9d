//! What holds of all datagrams: functions without a body, whose contracts are the laws.
ghost use Rattle.std.specs.Prelude.{◌≡◌, ℕ, ◌+◌, List, Some, Ok, IsSomeAnd};
ghost use Rattle.model_router.specs.Places.{nth};
ghost use Rattle.model_router.specs.Configs.{Config};
ghost use Rattle.model_router.specs.Routers.{Circuit};
ghost use Rattle.model_datagram.specs.Reading.{read};
ghost use Rattle.router_desk.specs.Desks.{DeskView, circuit_at, desk_of};
ghost use Rattle.router_desk.specs.Table.{tests_of, AllHold};
ghost use Rattle.router_desk.specs.Opening.{SeenView, seen_at, message_of};

/// What a desk finds in a datagram says what a router of the model reads of it, cause by cause.
pub fn reading_law()
    ensures { (config : Config) (circuits : List Circuit) (place : ℕ) (c : Circuit)
        (datagram : List ℕ)
        → nth circuits place ≡ Some c
        → message_of config.system (seen_at (desk_of config circuits) (place + 1) datagram)
        ≡ read config c datagram }
{}

/// What a desk finds passed each test on the circuit that it came on: a hello is of its kind, and
/// a level is run.
pub fn passed_law()
    ensures { (desk : DeskView) (number : ℕ) (datagram : List ℕ) (seen : SeenView)
        → seen_at desk number datagram ≡ Ok seen
        → IsSomeAnd (circuit_at desk number) (λ c. AllHold (tests_of desk c seen.pdu seen.octets)) }
{}
