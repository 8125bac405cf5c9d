//! What holds of all octets: functions without a body, whose contracts are the laws.
ghost use Rattle.std.specs.Prelude.{◌≡◌, ℕ, ◌+◌, ◌%◌, ◌<◌, ◌≤◌, ◌⊎◌, slice_index, ◌++◌, [], ◌∷◌, List, map, sum_by, length, Ok, Err, None, ◌↔◌};
ghost use Rattle.std.specs.Int.{bit_at};
ghost use Rattle.std.specs.List.{AllByRecursion, flat_map};
ghost use Rattle.isis_base.specs.declared.entry.LspEntry.{LspEntry};
ghost use Rattle.isis_base.specs.declared.identifiers.Snpa.{Snpa};
ghost use Rattle.isis_tlv.specs.declared.tlv.TlvFault.TheVariants.{Header, Past};
ghost use Rattle.isis_tlv.specs.declared.neighbour.NeighbourItem.{NeighbourItem};
ghost use Rattle.isis_tlv.specs.declared.prefix.PrefixItem.{PrefixItem};
ghost use Rattle.isis_tlv.specs.declared.three_way.ThreeWay.{ThreeWay};
ghost use Rattle.isis_tlv.specs.declared.codes.TheConstants.{AREAS, SNPAS, ENTRIES, AUTHENTICATION, NEIGHBOURS, PROTOCOLS, ADDRESSES, PREFIXES, THREE_WAY};
ghost use Rattle.isis_tlv.specs.Walks.{fault_of};
ghost use Rattle.isis_tlv.specs.Tlvs.{TlvView, tlv_octets, tlvs_of, tlv_list, AreTlvs, StandsIn};
ghost use Rattle.isis_tlv.specs.Items.{
  octets_for,
  areas_from,
  snpas_from,
  entries_from,
  neighbours_from,
  prefixes_from,
  fault_alone,
  areas_of,
  snpas_of,
  entries_of,
  neighbours_of,
  prefixes_of,
  three_way_of,
};
ghost use Rattle.isis_tlv.specs.Spelling.{
  entry_octets,
  neighbour_with_subs,
  prefix_octets,
  prefix_with_subs,
  area_value,
  snpa_value,
  entry_value,
  neighbour_value,
  prefix_value,
  three_way_octets,
};
ghost use Rattle.isis_tlv.specs.Fits.{IsArea, IsSnpa, IsEntry, IsNeighbour, IsPrefix, IsThreeWay};

/// What octets read as, one TLV at a time: each list of octets has one of these forms.
pub fn tlv_steps()
    ensures end { (place : ℕ) → tlvs_of place [] ≡ [] }
    ensures tlv { (place code : ℕ) (value rest : List ℕ)
        → tlvs_of place (tlv_octets code value ++ rest)
        ≡ Ok (record { code = code; place = place; value = value }) ∷ tlvs_of (place + 2 + length value) rest }
    ensures header { (place code : ℕ) → tlvs_of place (code ∷ []) ≡ Err (Header place) ∷ [] }
    ensures past { (place code count : ℕ) (octets : List ℕ) → length octets < count
        → tlvs_of place (code ∷ count ∷ octets) ≡ Err (Past place) ∷ [] }
{}

/// Each TLV stands where it says, with its value as a slice. Octets are TLVs to their end at every first place or at
/// none, exactly where they are TLVs one after another, and then the TLVs spelled again are the octets.
pub fn tlv_laws()
    ensures stands { (place : ℕ) (octets : List ℕ)
        → AllByRecursion (StandsIn place octets) (tlv_list place octets) }
    ensures anywhere { (place : ℕ) (octets : List ℕ)
        → AreTlvs octets ↔ (fault_of (tlvs_of place octets) ≡ None) }
    ensures list { (place : ℕ) (octets : List ℕ) → AreTlvs octets
        → tlvs_of place octets ≡ map (λ tlv. Ok tlv) (tlv_list place octets) }
    ensures again { (place : ℕ) (octets : List ℕ) → AreTlvs octets
        → flat_map (λ tlv. tlv_octets tlv.code tlv.value) (tlv_list place octets) ≡ octets }
    ensures joined { (first rest : List ℕ) → AreTlvs first → AreTlvs rest
        → AreTlvs (first ++ rest) }
    ensures one { (code : ℕ) (value : List ℕ) → AreTlvs (tlv_octets code value) }
{}

/// How many octets area addresses and prefixes take in a value.
pub fn length_laws()
    ensures areas { (list : List (List ℕ)) → length (area_value list)
        ≡ sum_by (λ area. 1 + length area) list }
    ensures prefixes { (list : List PrefixItem)
        → length (prefix_value list) ≡ sum_by (λ item. 5 + octets_for item.prefix.length) list }
{}

/// What the octets of a value read as, one item at a time: an item, with its sub-TLVs where it may have some, and then what
/// follows it; and a fault at the first octet of an item that doesn't fit, and nothing after it.
pub fn item_steps()
    ensures area { (place : ℕ) (area rest : List ℕ) → IsArea area
        → areas_from place (length area ∷ area ++ rest)
        ≡ Ok area ∷ areas_from (place + (1 + length area)) rest }
    ensures area_length { (place count : ℕ) (octets : List ℕ) → (count ≡ 0) ⊎ (14 ≤ count)
        → areas_from place (count ∷ octets) ≡ fault_alone place }
    ensures area_past { (place count : ℕ) (octets : List ℕ) → length octets < count
        → areas_from place (count ∷ octets) ≡ fault_alone place }
    ensures snpa { (place : ℕ) (snpa : Snpa) (rest : List ℕ) → IsSnpa snpa
        → snpas_from place (snpa.0 ++ rest) ≡ Ok snpa ∷ snpas_from (place + 6) rest }
    ensures snpa_past { (place : ℕ) (octets : List ℕ) → 0 < length octets → length octets < 6
        → snpas_from place octets ≡ fault_alone place }
    ensures entry { (place : ℕ) (entry : LspEntry) (rest : List ℕ) → IsEntry entry
        → entries_from place (entry_octets entry ++ rest)
        ≡ Ok entry ∷ entries_from (place + 16) rest }
    ensures entry_past { (place : ℕ) (octets : List ℕ) → 0 < length octets → length octets < 16
        → entries_from place octets ≡ fault_alone place }
    ensures neighbour { (place : ℕ) (item : NeighbourItem) (subs rest : List ℕ) → IsNeighbour item
        → neighbours_from place (neighbour_with_subs item subs ++ rest)
        ≡ Ok item ∷ neighbours_from (place + (11 + length subs)) rest }
    ensures neighbour_past { (place : ℕ) (octets : List ℕ) → 0 < length octets
        → length octets < 11 + slice_index octets 10
        → neighbours_from place octets ≡ fault_alone place }
    ensures prefix { (place : ℕ) (item : PrefixItem) (rest : List ℕ) → IsPrefix item
        → prefixes_from place (prefix_octets item ++ rest)
        ≡ Ok item ∷ prefixes_from (place + (5 + octets_for item.prefix.length)) rest }
    ensures prefix_subs { (place : ℕ) (item : PrefixItem) (subs rest : List ℕ) → IsPrefix item
        → prefixes_from place (prefix_with_subs item subs ++ rest)
        ≡ Ok item
        ∷ prefixes_from (place + (6 + octets_for item.prefix.length + length subs)) rest }
    ensures prefix_length { (place : ℕ) (octets : List ℕ) → 32 < slice_index octets 4 % 64
        → prefixes_from place octets ≡ fault_alone place }
    ensures prefix_past { (place : ℕ) (octets : List ℕ) → 0 < length octets
        → length octets < 5 + octets_for (slice_index octets 4 % 64)
        → prefixes_from place octets ≡ fault_alone place }
    ensures subs_past { (place : ℕ) (octets : List ℕ) → bit_at (slice_index octets 4) 6 ≡ 1
        → (let end = 5 + octets_for (slice_index octets 4 % 64) in
        length octets < end + (1 + slice_index octets end))
        → prefixes_from place octets ≡ fault_alone place }
{}

/// What the `put_` calls spell reads back as the same items, without a fault.
pub fn item_laws()
    ensures areas { (list : List (List ℕ)) → AllByRecursion IsArea list
        → areas_of (area_value list) ≡ map (λ area. Ok area) list }
    ensures snpas { (list : List Snpa) → AllByRecursion IsSnpa list
        → snpas_of (snpa_value list) ≡ map (λ snpa. Ok snpa) list }
    ensures entries { (list : List LspEntry) → AllByRecursion IsEntry list
        → entries_of (entry_value list) ≡ map (λ entry. Ok entry) list }
    ensures neighbours { (list : List NeighbourItem) → AllByRecursion IsNeighbour list
        → neighbours_of (neighbour_value list) ≡ map (λ item. Ok item) list }
    ensures prefixes { (list : List PrefixItem) → AllByRecursion IsPrefix list
        → prefixes_of (prefix_value list) ≡ map (λ item. Ok item) list }
    ensures three_way { (value : ThreeWay) → IsThreeWay value
        → three_way_of (three_way_octets value) ≡ Ok value }
{}

/// The codes of TLVs, in figures.
pub fn code_laws()
    ensures areas { AREAS ≡ 1 }
    ensures snpas { SNPAS ≡ 6 }
    ensures entries { ENTRIES ≡ 9 }
    ensures authentication { AUTHENTICATION ≡ 10 }
    ensures neighbours { NEIGHBOURS ≡ 22 }
    ensures protocols { PROTOCOLS ≡ 129 }
    ensures addresses { ADDRESSES ≡ 132 }
    ensures prefixes { PREFIXES ≡ 135 }
    ensures three_way { THREE_WAY ≡ 240 }
{}
