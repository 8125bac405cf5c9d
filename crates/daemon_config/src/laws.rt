//! What holds of all texts, and of the examples: functions without a body, whose contracts are the
//! laws.
ghost use Rattle.std.specs.Prelude.{◌≡◌, ℕ, List, ◌<◌, ◌≤◌, ◌^◌, Some, Ok, Err};
ghost use Rattle.std.specs.List.{AllByRecursion};
ghost use Rattle.isis_base.specs.PrefixTexts.{address_text};
ghost use Rattle.daemon_edge.specs.declared.place.Address.{Address};
ghost use Rattle.daemon_config.specs.Config.{config_of};
ghost use Rattle.daemon_config.specs.declared.fault.ConfigFault.TheVariants.{Refused};
ghost use Rattle.daemon_config.specs.Examples.{example_text, example_settings, refusals};
ghost use Rattle.daemon_config.specs.Fields.{host_of, address_of};
ghost use Rattle.daemon_config.specs.Written.{place_text};

/// Hosts and addresses are read of the texts that are written of them, and of no others.
pub fn address_law()
    ensures host { (host : ℕ) → host < 2 ^ 32 → host_of (address_text host) ≡ Some host }
    ensures host_only { (text : List ℕ) (host : ℕ) → host_of text ≡ Some host
        → text ≡ address_text host }
    ensures read { (a : Address) → a.host < 2 ^ 32 → 1 ≤ a.port → a.port ≤ 65535
        → address_of (place_text a) ≡ Some a }
    ensures only { (text : List ℕ) (a : Address) → address_of text ≡ Some a → text ≡ place_text a }
{}

/// What a document says, key by key: the example of the definitions.
pub fn example_law()
    ensures { config_of example_text ≡ Ok example_settings }
{}

/// Why documents are refused: the table of the definitions.
pub fn refusals_law()
    ensures { AllByRecursion (λ row. config_of row.text ≡ Err (Refused row.kind row.key)) refusals }
{}
