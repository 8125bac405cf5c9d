//! Laws: which split is made, and what the answers on own LSPs are in the router's model.
//! Functions without a body, whose contracts hold for all values.
ghost use Rattle.std.specs.Prelude.{◌≡◌, ℕ, ◌≤◌, ◌++◌, map, length, Bool, false, true, List, Option, Some, None};
ghost use Rattle.std.specs.List.{AllByRecursion};
ghost use Rattle.isis_base.specs.declared.level.Level.{Level};
ghost use Rattle.isis_base.specs.Identifiers.{IsId};
ghost use Rattle.isis_tlv.specs.declared.neighbour.NeighbourItem.{NeighbourItem};
ghost use Rattle.isis_tlv.specs.declared.prefix.PrefixItem.{PrefixItem};
ghost use Rattle.isis_tlv.specs.Spelling.{area_tlv, protocol_tlv};
ghost use Rattle.model_router.specs.Maps.{put, erase};
ghost use Rattle.model_router.specs.Books.{rank_of};
ghost use Rattle.model_router.specs.Cells.{Cell};
ghost use Rattle.model_router.specs.Routers.{Contents, Issued, LevelState, Router};
ghost use Rattle.model_router.specs.Givens.{Given};
ghost use Rattle.model_router.specs.OwnLsps as own;
ghost use Rattle.model_router.specs.Splits as splits;
ghost use Rattle.model_router.specs.SplitLaws.{IsSmall};
ghost use Rattle.model_router.specs.LspNeighbours.{node_items};
ghost use Rattle.model_router.specs.LspPrefixes.{reach_items};
ghost use Rattle.model_router.specs.Wanted.{first_tlvs, addresses_of};
ghost use Rattle.lsp_fragments.specs.Entries.{neighbour_entry, prefix_entry, address_tlvs, node_and_metric, reach_pair};
ghost use Rattle.lsp_fragments.specs.GoodSplits.{IsGoodSplit};
ghost use Rattle.lsp_fragments.specs.Issues.{issue_next, issue_above, says_same, next_of, outbid_by};

/// The split of the router's model is a good one: where each entry fits a TLV and a fragment alone,
/// the fragments say the entries in order, each once; no TLV and no fragment but the first fragment
/// begins with an entry that had a place before; and entries are left out only where 256
/// fragments have no place for them. No other split is good.
pub fn good_splits()
    ensures good { (first : List ℕ) (items : List splits.Item) (room : ℕ)
        → AllByRecursion (IsSmall room) items
        → IsGoodSplit first items room (splits.split first items room) }
    ensures only { (first : List ℕ) (items : List splits.Item) (room : ℕ) (split : splits.Split)
        → AllByRecursion (IsSmall room) items
        → IsGoodSplit first items room split → split ≡ splits.split first items room }
{}

/// `next_issue` answers what the router's model does with a wanted fragment, unless a full database
/// has no entry of its LSP ID: then the fragment waits.
pub fn next_laws()
    ensures next { (issued : Option Issued) (held : Option Cell) (contents : Contents)
        → own.next false issued held contents
        ≡ next_of (issue_next issued (rank_of held) (says_same issued contents)) }
    ensures held { (full : Bool) (issued : Option Issued) (held : Cell) (contents : Contents)
        → own.next full issued (Some held) contents
        ≡ next_of (issue_next issued held.rank (says_same issued contents)) }
    ensures full { (issued : Option Issued) (contents : Contents)
        → own.next true issued None contents ≡ own.Wait }
{}

/// `outbid` answers what becomes of an own LSP that is outbid in the router's model; `issued` and
/// `drop_id` do with own LSPs what an issue and a purge do there.
pub fn own_laws()
    ensures outbid { (given : Given) (r : Router) (level : Level) (state : LevelState)
        (id above : ℕ) (contents : Contents) (last : Cell)
        → own.outbid given r level state id above contents last
        ≡ outbid_by given r level state id contents last (issue_above above) }
    ensures issued { (state : LevelState) (id : ℕ) (contents : Contents) (cell : Cell)
        → (own.install state id contents cell).own
        ≡ put state.own id (record { contents = contents; age = 0 }) }
    ensures dropped { (state : LevelState) (id : ℕ) (purge : Cell)
        → (own.retire state id purge).own ≡ erase state.own id }
    ensures dropped_held { (state : LevelState) (id : ℕ) (held : Option Cell)
        → (own.retire_held state id held).own ≡ erase state.own id }
{}

/// A content says what the router's model has an LSP say: the same first TLVs, and the same entries
/// in the same order. Each entry fits a TLV and a fragment alone, so its split is good.
pub fn content_laws()
    ensures first { (r : Router) → first_tlvs r ≡ area_tlv r.config.areas ++ (protocol_tlv
        ++ address_tlvs (addresses_of r.circuits)) }
    ensures prefixes { (list : List PrefixItem)
        → reach_items (map reach_pair list) ≡ map prefix_entry list }
    ensures neighbours { (list : List NeighbourItem)
        → AllByRecursion (λ item. IsId (record { node = item.node; number = 0 })) list
        → node_items (map node_and_metric list) ≡ map neighbour_entry list }
    ensures small { (room : ℕ) (neighbours : List NeighbourItem) (prefixes : List PrefixItem)
        → 1400 ≤ room → AllByRecursion (λ item. length item.node.system.0 ≡ 6) neighbours
        → AllByRecursion (IsSmall room)
        (map neighbour_entry neighbours ++ map prefix_entry prefixes) }
{}
