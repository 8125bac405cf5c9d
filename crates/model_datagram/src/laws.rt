//! The laws: functions without a body, whose contracts hold for everything that is sent.
ghost use Rattle.std.specs.Prelude.{◌≡◌, ℕ, ◌+◌, ◌/◌, ◌%◌, ◌^◌, ◌<◌, ◌≤◌, Bool, List, length, Option, Some, Ok};
ghost use Rattle.std.specs.List.{AllByRecursion};
ghost use Rattle.isis_base.specs.declared.level.Level.{Level};
ghost use Rattle.isis_base.specs.declared.pdu_kind.PduKind.TheVariants as kind;
ghost use Rattle.isis_base.specs.Identifiers.{lsp_number};
ghost use Rattle.iso_checksum.specs.Checksum.{Holds, IsCheckOctet};
ghost use Rattle.isis_tlv.specs.declared.three_way.Adj.{Adj};
ghost use Rattle.isis_pdu.specs.Views.{PduView};
ghost use Rattle.isis_pdu.specs.Reading.{Begins};
ghost use Rattle.isis_pdu.specs.Decoded.{decoded};
ghost use Rattle.model_router.specs.Both.{at};
ghost use Rattle.model_router.specs.Cells.{Cell, purged};
ghost use Rattle.model_router.specs.Configs.{Config};
ghost use Rattle.model_router.specs.Routers.{Circuit, Contents, Router};
ghost use Rattle.model_router.specs.SnpTable.{SnpEntry};
ghost use Rattle.model_router.specs.Events.{Event};
ghost use Rattle.model_router.specs.Steps.{step};
ghost use Rattle.model_router.specs.Sorted.{IsSorted};
ghost use Rattle.model_router.specs.ReplyLaws.{AllSent};
ghost use Rattle.model_router.specs.Starts.{start};
ghost use Rattle.model_router.specs.Datagrams.{PointHello, LanHello, Lsp, Csnp, Psnp};
ghost use Rattle.model_router.specs.Good.{IsGoodGiven, IsGoodMessage, IsGoodEvent, IsGoodRouter, IsTelling, IsIssuable};
ghost use Rattle.model_router.specs.Numbers.{system_id, snpa_id, node_id, lsp_id, system_number, snpa_number, node_number};
ghost use Rattle.model_datagram.specs.Frames.{framed, unframed};
ghost use Rattle.model_datagram.specs.Reading.{read};
ghost use Rattle.model_datagram.specs.CheckOctets.{checksum_with, with_checksum};
ghost use Rattle.model_datagram.specs.Lsps.{given_octets};
ghost use Rattle.model_datagram.specs.Said.{ReadsBack, CanRead};
ghost use Rattle.model_datagram.specs.Senders.{IsSender, IsHandshake, IsLanHello};
ghost use Rattle.model_router.specs.Good.{AreTellable};
ghost use Rattle.model_datagram.specs.LspLaws.{IsLiveLsp, IssueTells, IsPurge, TellsKept, TellsEvent, AreSendable, ReadsUpdate};

/// Identifiers of numbers have those numbers.
pub fn number_laws()
    ensures system { (n : ℕ) → n < 2 ^ 48 → system_number (system_id n) ≡ n }
    ensures snpa { (n : ℕ) → n < 2 ^ 48 → snpa_number (snpa_id n) ≡ n }
    ensures node { (n : ℕ) → n < 2 ^ 56 → node_number (node_id n) ≡ n }
    ensures lsp { (n : ℕ) → n < 2 ^ 64 → lsp_number (lsp_id n) ≡ n }
{}

/// A datagram's frame reads back.
pub fn frame_law()
    ensures { (snpa boot : ℕ) (pdu : List ℕ) → snpa < 2 ^ 48 → boot < 2 ^ 32
        → unframed (framed snpa boot pdu) ≡ Ok (record { snpa = snpa; boot = boot }, pdu) }
{}

/// Octets that begin with a PDU decode to it.
pub fn decoded_law()
    ensures { (octets : List ℕ) (pdu : PduView) (n : ℕ) → Begins octets pdu n
        → decoded octets ≡ Ok (pdu, n) }
{}

/// The checksum of octets that have 0 in its place, where the second check octet has that weight,
/// makes them hold; each check octet is 1 to 255, so it is the one that `fill` of iso_checksum
/// writes.
pub fn checksum_law()
    ensures holds { (octets : List ℕ) (place weight : ℕ) → place + 2 ≤ length octets
        → with_checksum place 0 octets ≡ octets → weight + place + 1 ≡ length octets
        → Holds (with_checksum place (checksum_with octets weight) octets) }
    ensures first { (octets : List ℕ) (weight : ℕ)
        → IsCheckOctet (checksum_with octets weight / 256) }
    ensures second { (octets : List ℕ) (weight : ℕ)
        → IsCheckOctet (checksum_with octets weight % 256) }
{}

/// What is read of octets has the sizes that the model's laws ask of a message.
pub fn good_law()
    ensures { (by : Config) (on : Circuit) (octets : List ℕ)
        → AllByRecursion (λ octet. octet < 256) octets → IsGoodMessage (read by on octets) }
{}

/// A point-to-point hello reads back, with its authentication where there is a key.
pub fn point_hello_law()
    ensures { (by config : Config) (on c : Circuit) (boot place : ℕ)
        (state : Adj) (extended : ℕ) (named : Option (ℕ × ℕ))
        → boot < 2 ^ 32 → IsSender config → IsHandshake extended named → CanRead by on config c kind.PointHello
        → ReadsBack by on config boot place c (PointHello state extended named) }
{}

/// A LAN hello reads back, with its authentication where there is a key.
pub fn lan_hello_law()
    ensures { (by config : Config) (on c : Circuit) (boot place : ℕ)
        (level : Level) (lan : ℕ) (snpas : List ℕ)
        → boot < 2 ^ 32 → IsSender config → IsLanHello c.priority lan snpas
        → CanRead by on config c (kind.LanHello level)
        → ReadsBack by on config boot place c (LanHello level lan snpas) }
{}

/// A PSNP reads back, with its authentication where there is a key.
pub fn psnp_law()
    ensures { (by config : Config) (on c : Circuit) (boot place : ℕ)
        (level : Level) (entries : List SnpEntry)
        → boot < 2 ^ 32 → IsSender config → AreTellable entries → CanRead by on config c (kind.Psnp level)
        → ReadsBack by on config boot place c (Psnp level entries) }
{}

/// A CSNP reads back, with its authentication where there is a key.
pub fn csnp_law()
    ensures { (by config : Config) (on c : Circuit) (boot place : ℕ)
        (level : Level) (start end : ℕ) (entries : List SnpEntry)
        → boot < 2 ^ 32 → IsSender config → start < 2 ^ 64 → end < 2 ^ 64 → AreTellable entries
        → CanRead by on config c (kind.Csnp level)
        → ReadsBack by on config boot place c (Csnp level start end entries) }
{}

/// What is issued says what is held of it, has a checksum that holds and is authentic. So it may be
/// sent.
pub fn issue_law()
    ensures tells { (leaks : Router → Level → List (ℕ × ℕ)) (attached : Router → Bool)
        (r : Router) (level : Level) (id number : ℕ) (contents : Contents)
        → number < 2 ^ 32 → IsIssuable (at r.config.keys level) contents
        → IssueTells (given_octets leaks attached) r level id number contents }
    ensures good { (leaks : Router → Level → List (ℕ × ℕ)) (attached : Router → Bool)
        → IsGoodGiven (given_octets leaks attached) }
{}

/// A live LSP that is held reads back, with the seconds that are left.
pub fn lsp_law()
    ensures { (by config : Config) (on c : Circuit) (boot place : ℕ)
        (level : Level) (id : ℕ) (cell : Cell)
        → boot < 2 ^ 32 → config.system < 2 ^ 48 → IsLiveLsp (at config.keys level) level id cell
        → CanRead by on config c (kind.Lsp level)
        → ReadsBack by on config boot place c (Lsp level id cell) }
{}

/// A purge that is held reads back: its header, with its authentication where there is a key.
pub fn purge_law()
    ensures { (by config : Config) (on c : Circuit) (boot place : ℕ)
        (level : Level) (id : ℕ) (cell : Cell)
        → boot < 2 ^ 32 → config.system < 2 ^ 48 → IsPurge level id cell → CanRead by on config c (kind.Lsp level)
        → ReadsBack by on config boot place c (Lsp level id cell) }
{}

/// The purge that is made of a live LSP that may be sent may be sent.
pub fn purged_law()
    ensures { (key : Option (List ℕ)) (level : Level) (id : ℕ) (cell : Cell)
        → IsLiveLsp key level id cell → IsPurge level id (purged cell) }
{}

/// What is kept of an LSP that is read, live or as a purge, may be sent.
pub fn kept_law()
    ensures { (by : Config) (on : Circuit) (octets : List ℕ)
        → AllByRecursion (λ octet. octet < 256) octets → TellsKept by (read by on octets) }
{}

/// Each entry with a key of a router may be sent, and so reads back: from its start on, after each
/// step of a good event whose LSP, if it says one, was read of octets.
pub fn sendable_laws()
    ensures start { (config : Config) (boot : ℕ) (circuits : List Circuit)
        → AreSendable (start config boot circuits) }
    ensures step { (leaks : Router → Level → List (ℕ × ℕ)) (attached : Router → Bool)
        (r : Router) (event : Event)
        → IsGoodRouter r → IsTelling r → IsGoodEvent event → TellsEvent r.config event
        → AreSendable r → AreSendable (step (given_octets leaks attached) r event).router }
{}

/// Whatever LSP or SNP a step sends reads back, on whichever circuit, by a reader that can read it.
pub fn step_reads()
    ensures { (leaks : Router → Level → List (ℕ × ℕ)) (attached : Router → Bool)
        (r : Router) (event : Event) (by : Config) (on c : Circuit) (boot place : ℕ)
        → boot < 2 ^ 32 → IsSorted r → IsGoodRouter r → IsTelling r → IsGoodEvent event
        → TellsEvent r.config event → AreSendable r
        → IsSender (step (given_octets leaks attached) r event).router.config
        → AllSent
        (ReadsUpdate by on (step (given_octets leaks attached) r event).router.config boot place c)
        (step (given_octets leaks attached) r event).reply }
{}
