//! What holds of all values: functions without a body, whose contracts are the laws.
ghost use Rattle.std.specs.Prelude.{◌≡◌, ◌<◌, Some, List, length, [], ◌∷◌, ◌++◌, ℕ, Option};
ghost use Rattle.std.specs.declared.cmp.Ordering.TheVariants.{Less, Equal, Greater};
ghost use Rattle.std.specs.Cmp.Lexicographic.{slice_cmp};
ghost use Rattle.std.specs.Ordering.{nat_cmp};
ghost use Rattle.std.specs.List.{AllByRecursion};
ghost use Rattle.std.specs.Option.{option_map};
ghost use Rattle.isis_base.specs.Identifiers.{IsId, node_octets, lsp_octets, lsp_number, lsp_from, system_from};
ghost use Rattle.isis_base.specs.declared.key.Key.{Key};
ghost use Rattle.isis_base.specs.declared.level.Level.{Level};
ghost use Rattle.isis_base.specs.declared.level.Level.TheVariants as level;
ghost use Rattle.isis_base.specs.declared.parts.Part.TheVariants.{Octet, Mark};
ghost use Rattle.isis_base.specs.declared.pdu_kind.PduKind.TheVariants as kind;
ghost use Rattle.isis_base.specs.PduKinds.{header_length};
ghost use Rattle.isis_base.specs.declared.numbers.TheConstants.{LSP_HEADER, LSP_LIFETIME, LSP_SUMMED, LSP_CHECKSUM, OVERLOAD, ATTACHED, CIRCUIT_METRIC, PREFIX_METRIC, FRAME, SNP_ENTRIES, ENTRY_LIMIT, CIRCUIT_LIMIT, PREFIX_LIMIT, BOOT_LIMIT};
ghost use Rattle.isis_base.specs.Keys.{join_of};
ghost use Rattle.isis_base.specs.AreaTexts.{SpellsArea, area_text, area_of};
ghost use Rattle.isis_base.specs.declared.level.LevelSet.{LevelSet};
ghost use Rattle.isis_base.specs.Levels.{levels_text, levels_of};
ghost use Rattle.isis_base.specs.Prefixes.{prefix_from};
ghost use Rattle.isis_base.specs.PrefixFronts.{prefix_parts};
ghost use Rattle.isis_base.specs.PrefixTexts.{SpellsPrefix, prefix_text};
ghost use Rattle.isis_base.specs.Misfit.{text_octets};
ghost use Rattle.isis_base.specs.declared.texts.TheConstants.{SYSTEM_TEXT, NODE_TEXT, LSP_TEXT};
ghost use Rattle.isis_base.specs.Texts.{Spells, system_text, snpa_text, node_text, lsp_text};

use crate::area::AreaAddress;
use crate::identifiers::{LspId, NodeId, Snpa, SystemId};
use crate::level::Level;
use crate::lsp_number::{octets_of_lsp, octets_of_system};
use crate::prefix::Prefix;

/// What Display writes of a system ID spells it and is read as it, and a text spells one system ID.
pub fn system_text_laws(a: SystemId, b: SystemId)
    ensures written { Spells SYSTEM_TEXT (system_text a) a.0 }
    ensures read { option_map system_from (text_octets SYSTEM_TEXT (system_text a)) ≡ Some a }
    ensures one { (text : List ℕ) → Spells SYSTEM_TEXT text a.0 → Spells SYSTEM_TEXT text b.0
        → a ≡ b }
{
    let _octets = octets_of_system(a);
}

/// What Display writes of an SNPA spells it, and a text spells one SNPA.
pub fn snpa_text_laws(a: Snpa, b: Snpa)
    ensures written { Spells SYSTEM_TEXT (snpa_text a) a.0 }
    ensures one { (text : List ℕ) → Spells SYSTEM_TEXT text a.0 → Spells SYSTEM_TEXT text b.0
        → a ≡ b }
{
    let _octets = octets_of_system(SystemId(a.0));
}

/// What Display writes of a node ID spells it, and a text spells one node ID.
pub fn node_text_laws(a: NodeId, b: NodeId)
    ensures written { Spells NODE_TEXT (node_text a) (node_octets a) }
    ensures one { (text : List ℕ) → Spells NODE_TEXT text (node_octets a)
        → Spells NODE_TEXT text (node_octets b) → a ≡ b }
{
    let _octets = octets_of_lsp(LspId { node: a, number: 0 });
}

/// What Display writes of an LSP ID spells it and is read as it, and a text spells one LSP ID.
pub fn lsp_text_laws(a: LspId, b: LspId)
    ensures written { Spells LSP_TEXT (lsp_text a) (lsp_octets a) }
    ensures read { option_map lsp_from (text_octets LSP_TEXT (lsp_text a)) ≡ Some a }
    ensures one { (text : List ℕ) → Spells LSP_TEXT text (lsp_octets a)
        → Spells LSP_TEXT text (lsp_octets b) → a ≡ b }
{
    let _octets = octets_of_lsp(a);
}

/// What Display writes of an area address spells it and is read as it, and a text spells one area address.
pub fn area_text_laws(area: AreaAddress)
    ensures written { SpellsArea (area_text area) area }
    ensures read { area_of (area_text area) ≡ Some area }
    ensures one { (text a b : List ℕ) → SpellsArea text a → SpellsArea text b → a ≡ b }
{
    octets_law(area.octets());
}

/// What Display writes of a prefix spells it and is read as it, and a text spells one prefix.
pub fn prefix_text_laws(prefix: Prefix)
    ensures written { let text = prefix_text prefix.address prefix.length in
        SpellsPrefix text prefix.address prefix.length }
    ensures read { prefix_parts (prefix_text prefix.address prefix.length)
        ≡ Some (prefix.address, prefix.length) }
    ensures one { (text : List ℕ) (a b c d : ℕ) → SpellsPrefix text a b → SpellsPrefix text c d
        → (a ≡ c) × (b ≡ d) }
{
    let _address = prefix.address();
}

/// What Display writes of a set of levels is read as it, and a text is that of one set of levels.
pub fn levels_text_laws()
    ensures read { (a : LevelSet) → levels_of (levels_text a) ≡ Some a }
    ensures one { (a b : LevelSet) → levels_text a ≡ levels_text b → a ≡ b }
{}

/// System IDs are ordered by their octets.
pub fn system_order_law(a: SystemId, b: SystemId)
    ensures { ⟦<SystemId as Ord>⟧.cmp a b ≡ slice_cmp nat_cmp a.0 b.0 }
{}

/// SNPAs are ordered by their octets.
pub fn snpa_order_law(a: Snpa, b: Snpa)
    ensures { ⟦<Snpa as Ord>⟧.cmp a b ≡ slice_cmp nat_cmp a.0 b.0 }
{}

/// Node IDs are ordered by their octets.
pub fn node_order_law(a: NodeId, b: NodeId)
    ensures { ⟦<NodeId as Ord>⟧.cmp a b ≡ slice_cmp nat_cmp (node_octets a) (node_octets b) }
{}

/// LSP IDs are ordered by their octets, and so by their numbers.
pub fn lsp_order_law(a: LspId, b: LspId)
    ensures octets { ⟦<LspId as Ord>⟧.cmp a b ≡ slice_cmp nat_cmp (lsp_octets a) (lsp_octets b) }
    ensures number { ⟦<LspId as Ord>⟧.cmp a b ≡ nat_cmp (lsp_number a) (lsp_number b) }
{
    let _of_a = octets_of_lsp(a);
    let _of_b = octets_of_lsp(b);
}

/// An LSP ID has eight octets.
pub fn lsp_id_law(id: LspId)
    ensures { IsId id }
{
    let _octets = octets_of_lsp(id);
}

/// LSP IDs of one number are one. So `LspId::from_number(id.to_number())` is `id`.
pub fn lsp_number_law(a: LspId, b: LspId)
    ensures { lsp_number a ≡ lsp_number b → a ≡ b }
{
    let _of_a = octets_of_lsp(a);
    let _of_b = octets_of_lsp(b);
}

/// `join` is commutative, associative and idempotent: copies may come in any order and any number of times.
pub fn join_laws()
    ensures commutative { (a b : Option Key) → join_of a b ≡ join_of b a }
    ensures associative { (a b c : Option Key) → join_of (join_of a b) c ≡ join_of a (join_of b c) }
    ensures idempotent { (a : Option Key) → join_of a a ≡ a }
{}

/// A prefix is the one of its address and length, and two of one address and length are one.
pub fn prefix_laws(a: Prefix, b: Prefix)
    ensures from { prefix_from a.address a.length ≡ Some a }
    ensures one { a.address ≡ b.address → a.length ≡ b.length → a ≡ b }
{}

/// Level 1 comes before level 2.
pub fn level_order_law()
    ensures one { ⟦<Level as Ord>⟧.cmp level.One level.Two ≡ Less }
    ensures two { ⟦<Level as Ord>⟧.cmp level.Two level.One ≡ Greater }
    ensures same { (a : Level) → ⟦<Level as Ord>⟧.cmp a a ≡ Equal }
{}

/// The marks of identifiers' texts: dots (46) between groups of two octets and before a pseudonode's octet, a hyphen (45)
/// before an LSP's number.
pub fn text_form_laws()
    ensures system { SYSTEM_TEXT
        ≡ Octet ∷ Octet ∷ Mark 46 ∷ Octet ∷ Octet ∷ Mark 46 ∷ Octet ∷ Octet ∷ [] }
    ensures node { NODE_TEXT ≡ SYSTEM_TEXT ++ Mark 46 ∷ Octet ∷ [] }
    ensures lsp { LSP_TEXT ≡ NODE_TEXT ++ Mark 45 ∷ Octet ∷ [] }
{}

/// Octets are below 256.
pub fn octets_law(octets: &[u8])
    ensures { AllByRecursion (λ octet. octet < 256) octets.now }
{}

/// Six octets are six, each below 256.
pub fn are_six(octets: [u8; 6])
    ensures six { length octets ≡ 6 }
    ensures small { AllByRecursion (λ octet. octet < 256) octets }
{
    let [_a, _b, _c, _d, _e, _f] = octets;
}

/// The numbers of the protocol and the limits, in figures.
pub fn number_laws()
    ensures header { (level : Level) → LSP_HEADER ≡ header_length (kind.Lsp level) }
    ensures octets { LSP_HEADER ≡ 27 }
    ensures lifetime { LSP_LIFETIME ≡ 10 }
    ensures summed { LSP_SUMMED ≡ 12 }
    ensures checksum { LSP_CHECKSUM ≡ 24 }
    ensures overload { OVERLOAD ≡ 4 }
    ensures attached { ATTACHED ≡ 8 }
    ensures circuit_metric { CIRCUIT_METRIC ≡ 16777215 }
    ensures prefix_metric { PREFIX_METRIC ≡ 4261412864 }
    ensures frame { FRAME ≡ 14 }
    ensures snp_entries { SNP_ENTRIES ≡ 75 }
    ensures entries { ENTRY_LIMIT ≡ 65536 }
    ensures circuits { CIRCUIT_LIMIT ≡ 64 }
    ensures prefixes { PREFIX_LIMIT ≡ 4096 }
    ensures boots { BOOT_LIMIT ≡ 16777215 }
{}
