//! Rows of the tables and the first steps of a router, worked out by computation.
ghost use Rattle.std.specs.Prelude.{◌≡◌, ◌-◌, ◌^◌, true, false, [], ◌∷◌, length, replicate, Some, None, is_some};
ghost use Rattle.isis_base.specs.declared.level.Level.TheVariants.{One, Two};
ghost use Rattle.isis_tlv.specs.declared.three_way.Adj.TheVariants.{Up, Initializing, Down};
ghost use Rattle.model_router.specs.declared.whose.Whose.TheVariants.{Other, Unissued};
ghost use Rattle.model_router.specs.declared.drop_name.DropName.TheVariants.{OwnId, OtherSnpa, OldBoot, NoLevel, NoArea, NoThreeWay, OtherNeighbour, TooMany, NoAdjacency, NotDesignated};
ghost use Rattle.model_router.specs.Waits.{no_waits, wait, five_at, fallen};
ghost use Rattle.model_router.specs.Books.{cell_at, rank_of, is_full};
ghost use Rattle.model_router.specs.Adjacencies.{three_way, is_same};
ghost use Rattle.model_router.specs.Starts.{quiet};
ghost use Rattle.model_router.specs.LetGos.{let_go};
ghost use Rattle.model_router.specs.HelloTests.{many_drop, point_drop, full_drop};
ghost use Rattle.model_router.specs.LspNeighbours.{lan_node, put_nodes};
ghost use Rattle.model_router.specs.LspPrefixes.{with_leaks, prefixes_of, reach_items};
ghost use Rattle.model_router.specs.Wanted.{first_flags, wanted};
ghost use Rattle.model_router.specs.Pulls.{csnp_sent};
ghost use Rattle.model_router.specs.SnpLists.{pieces, csnp_set};
ghost use Rattle.model_router.specs.Receiving.{up_system, no_room};
ghost use Rattle.model_router.specs.Routers.{level_of};
ghost use Rattle.model_router.specs.Openings.{close, open_up};
ghost use Rattle.model_router.specs.Splits.{holds_more};
ghost use Rattle.model_router.specs.Ageing.{aged, is_let_go};
ghost use Rattle.model_router.specs.LspTable.{hear_lsp};
ghost use Rattle.model_router.specs.SnpTable.{asked, hear_entry, is_missed};
ghost use Rattle.model_router.specs.OwnLsps.{Wait, Number, Exhaust, is_due, next};
ghost use Rattle.model_router.specs.Datagrams.{PointHello, LanHello, Csnp, Lsp, Psnp};
ghost use Rattle.model_router.specs.Events.{Second, Take, Pull, LspHeard, SnpHeard, Done, Dropped, Send};
ghost use Rattle.model_router.specs.Rows.{cell_of, header, lsp, entry, purge_entry, asked_for, book_with, before, config, level_one, level_two, shake, tested, contents_of, issued_at, hello, hello_from, hello_by, up_from, lan_hello_of, lan_hello, low_hello, events_up, seconds, own_lsp, run, answer_to, given, router, running, attached, both_levels, elected, lan_lsps, from_snpa, heard_of, leaking, own_prefix, leaked_prefix, leaker, entry_heard, changed_prefix, own_after, held_after, filled_up, full_of, heard_from, boots_from};

/// A flag that was sent waits five seconds, and each second one less.
pub fn wait_rows()
    ensures five { wait (five_at no_waits 1) 1 ≡ 5 }
    ensures four { wait (fallen (five_at no_waits 1)) 1 ≡ 4 }
    ensures three { wait (fallen (fallen (five_at no_waits 1))) 1 ≡ 3 }
    ensures others { wait (fallen (five_at no_waits 1)) 2 ≡ 0 }
{}

/// Rows of the table for LSPs, where number 2 is held: circuits 1 and 2 are point-to-point, circuit
/// 3 is a LAN.
pub fn lsp_rows()
    ensures stored { hear_lsp before 0 Other (lsp 6 9)
        ≡ book_with ((7, cell_of 6 9 1100 (replicate 30 1) 6 1) ∷ []) 5 }
    ensures stored_lan { hear_lsp before 2 Other (lsp 6 9)
        ≡ book_with ((7, cell_of 6 9 1100 (replicate 30 1) 3 4) ∷ []) 5 }
    ensures purge { hear_lsp before 0 Other (lsp 5 0)
        ≡ book_with ((7, cell_of 5 0 60 header 6 1) ∷ []) 5 }
    ensures confused { hear_lsp before 0 Other (lsp 4 9)
        ≡ book_with ((7, cell_of 5 0 60 header 7 0) ∷ []) 5 }
    ensures purged_own { hear_lsp before 0 Unissued (lsp 6 9)
        ≡ book_with ((7, cell_of 7 0 60 header 7 0) ∷ []) 5 }
    ensures same { hear_lsp before 1 Other (lsp 4 5)
        ≡ book_with ((7, cell_of 4 5 900 (replicate 27 1) 0 6) ∷ []) 4 }
    ensures same_lan { hear_lsp before 2 Other (lsp 4 5)
        ≡ book_with ((7, cell_of 4 5 900 (replicate 27 1) 2 6) ∷ []) 4 }
    ensures same_lan_clear { hear_lsp (book_with ((7, cell_of 4 5 900 (replicate 27 1) 4 0) ∷ []) 4)
        2 Other (lsp 4 5) ≡ book_with ((7, cell_of 4 5 900 (replicate 27 1) 0 0) ∷ []) 4 }
    ensures older { hear_lsp before 2 Other (lsp 2 5)
        ≡ book_with ((7, cell_of 4 5 900 (replicate 27 1) 6 2) ∷ []) 4 }
    ensures unheld { hear_lsp (book_with [] 4) 0 Other (lsp 5 0) ≡ book_with [] 4 }
    ensures empty { hear_lsp (book_with ((7, asked_for) ∷ []) 4) 0 Other (lsp 5 0) ≡ book_with [] 4 }
{}

/// Rows of the table for entries.
pub fn snp_rows()
    ensures same { hear_entry before 1 Other (entry 4 5)
        ≡ book_with ((7, cell_of 4 5 900 (replicate 27 1) 0 6) ∷ []) 4 }
    ensures same_lan { hear_entry before 2 Other (entry 4 5) ≡ before }
    ensures newer { hear_entry before 1 Other (entry 6 5)
        ≡ book_with ((7, cell_of 4 5 900 (replicate 27 1) 0 6) ∷ []) 4 }
    ensures older { hear_entry before 2 Other (entry 2 5)
        ≡ book_with ((7, cell_of 4 5 900 (replicate 27 1) 6 2) ∷ []) 4 }
    ensures asked { cell_at (hear_entry (book_with [] 4) 0 Other (entry 6 5)) 7
        ≡ Some asked_for }
    ensures full { asked true 0 None ≡ None }
    ensures unasked { hear_entry (book_with [] 4) 0 Other (entry 6 0) ≡ book_with [] 4 }
{}

/// A fragment with the same contents is issued anew after 900 seconds, one with other contents
/// after 5; at the number above the one that is held.
pub fn issue_rows()
    ensures first { is_due None (contents_of 1) ≡ true }
    ensures same { is_due (issued_at 899) (contents_of 1) ≡ false }
    ensures old { is_due (issued_at 900) (contents_of 1) ≡ true }
    ensures changed_early { is_due (issued_at 4) (contents_of 3) ≡ false }
    ensures changed { is_due (issued_at 5) (contents_of 3) ≡ true }
    ensures number { next false None (Some (cell_of 5 0 60 [] 0 0)) (contents_of 1) ≡ Number 3 }
    ensures number_one { next false None None (contents_of 1) ≡ Number 1 }
    ensures exhausted { next false None (Some (cell_of 8589934590 9 60 [] 0 0)) (contents_of 1)
        ≡ Exhaust }
    ensures full { next true None None (contents_of 1) ≡ Wait }
{}

/// The tests of a point-to-point hello, by a router of L2 in area 49.0001 with extended circuit ID
/// 257.
pub fn hello_rows()
    ensures good { tested config 2 2 level_two [] (shake (Some (1, 257))) ≡ None }
    ensures own_id { tested config 1 1 level_two [] (shake None) ≡ Some OwnId }
    ensures own_before_snpa { tested config 1 3 level_two [] (shake None) ≡ Some OwnId }
    ensures other_snpa { tested config 2 3 level_two [] (shake None) ≡ Some OtherSnpa }
    ensures no_level { tested config 2 2 level_one [] (shake None) ≡ Some NoLevel }
    ensures no_area { tested (record config { runs = level_one }) 2 2 level_one [] (shake None)
        ≡ Some NoArea }
    ensures no_three_way { tested config 2 2 level_two [] None ≡ Some NoThreeWay }
    ensures other_system { tested config 2 2 level_two [] (shake (Some (3, 257)))
        ≡ Some OtherNeighbour }
    ensures old_boot { point_drop config 257 ((2, 3) ∷ []) (hello_from 2 Down None) ≡ Some OldBoot }
    ensures old_first { point_drop config 257 ((2, 3) ∷ [])
        (record (hello_from 2 Down None) { runs = level_one }) ≡ Some OldBoot }
    ensures same_boot { point_drop config 257 ((2, 2) ∷ []) (hello_from 2 Down None) ≡ None }
    ensures other_boot { tested config 2 2 level_two [] (shake (Some (1, 513)))
        ≡ Some OtherNeighbour }
{}

/// A router's first hellos, the handshake, its first CSNP set, and its first LSP, which is sent
/// again after five seconds; and its hellos every ten seconds.
pub fn first_steps()
    ensures hello_sent { (answer_to (Pull 0) []).reply ≡ Send (PointHello Down 257 None ∷ []) }
    ensures lan_hello { (answer_to (Pull 1) []).reply ≡ Send (LanHello Two 258 [] ∷ []) }
    ensures hello_waits { (answer_to (Pull 0) (seconds 9 (Pull 0 ∷ []))).reply ≡ Send [] }
    ensures hello_again { (answer_to (Pull 0) (seconds 10 (Pull 0 ∷ []))).reply
        ≡ Send (PointHello Down 257 None ∷ []) }
    ensures initializing { (answer_to (Pull 0) (hello Down None ∷ [])).reply
        ≡ Send (PointHello Initializing 257 (Some (2, 513)) ∷ []) }
    ensures up { (answer_to (Pull 0) events_up).reply
        ≡ Send (PointHello Up 257 (Some (2, 513)) ∷ Csnp Two 0 (2 ^ 64 - 1) [] ∷ []) }
    ensures issued { (answer_to (Pull 0) (Second ∷ Pull 0 ∷ events_up)).reply
        ≡ Send (Lsp Two 65536 (own_lsp 1200 0 1) ∷ []) }
    ensures silent { (answer_to (Pull 0) (seconds 4 (Pull 0 ∷ Second ∷ Pull 0 ∷ events_up))).reply
        ≡ Send [] }
    ensures again { (answer_to (Pull 0) (seconds 5 (Pull 0 ∷ Second ∷ Pull 0 ∷ events_up))).reply
        ≡ Send (Lsp Two 65536 (own_lsp 1195 0 1) ∷ []) }
{}

/// On a LAN the neighbour of the greater SNPA is designated; an LSP is sent once, PSNPs are left to
/// the neighbour, and a purge that isn't held is let go. Point to point it is acknowledged too.
pub fn lan_steps()
    ensures issued { (answer_to (Pull 1) (Second ∷ lan_hello ∷ [])).reply
        ≡ Send (LanHello Two 513 (2 ∷ []) ∷ Lsp Two 65536 (own_lsp 1200 1 2) ∷ []) }
    ensures once { (answer_to (Pull 1) (seconds 5 (Pull 1 ∷ Second ∷ lan_hello ∷ []))).reply
        ≡ Send [] }
    ensures opened { (answer_to (Pull 1) (lan_hello ∷ Second ∷ [])).reply
        ≡ Send (LanHello Two 513 (2 ∷ []) ∷ []) }
    ensures partial { (answer_to (Take 1 (SnpHeard Two (from_snpa 2) 2 None [])) (lan_hello ∷ [])).reply
        ≡ Dropped NotDesignated }
    ensures up { up_system (Some (up_from 2)) 2 ≡ Some 2 }
    ensures not_up { up_system (Some (record (up_from 2) { up = false })) 2 ≡ None }
    ensures old_lsp { (answer_to (Take 1 (LspHeard Two (record (from_snpa 2) { boot = 1 }) (lsp 6 9)))
        (lan_hello ∷ [])).reply ≡ Dropped NoAdjacency }
    ensures old_point { (answer_to (Take 0 (LspHeard Two (record (from_snpa 2) { boot = 1 }) (lsp 6 9)))
        events_up).reply ≡ Dropped NoAdjacency }
    ensures lsp { (answer_to (Take 1 (LspHeard Two (from_snpa 2) (lsp 6 9))) (lan_hello ∷ [])).reply
        ≡ Done }
    ensures purge { (answer_to (Take 1 (LspHeard Two (from_snpa 2) (lsp 5 0))) (lan_hello ∷ [])).reply
        ≡ Done }
    ensures acknowledged { (answer_to (Take 0 (LspHeard Two (from_snpa 2) (lsp 5 0))) events_up).reply
        ≡ Send (Psnp Two (purge_entry ∷ []) ∷ []) }
    ensures let_go { (level_of (run (Take 0 (LspHeard Two (from_snpa 2) (lsp 5 0)) ∷ events_up)) Two).gone
        ≡ Some (7 ∷ []) }
    ensures other_lsp { (answer_to (Take 1 (LspHeard Two (from_snpa 3) (lsp 6 9))) (lan_hello ∷ [])).reply
        ≡ Dropped NoAdjacency }
    ensures complete { (answer_to (Take 1 (SnpHeard Two (from_snpa 2) 2 (Some (0, 9)) []))
        (lan_hello ∷ [])).reply ≡ Done }
    ensures other_source { (answer_to (Take 1 (SnpHeard Two (from_snpa 2) 3 (Some (0, 9)) []))
        (lan_hello ∷ [])).reply ≡ Dropped NoAdjacency }
{}

/// The three-way handshake (RFC 5303 3.2): one's own state, the state that is heard, and the new
/// one; and whether a hello is from the neighbour that is kept.
pub fn handshake_rows()
    ensures down_down { three_way Down Down ≡ Initializing }
    ensures down_initializing { three_way Down Initializing ≡ Up }
    ensures down_up { three_way Down Up ≡ Down }
    ensures initializing_down { three_way Initializing Down ≡ Initializing }
    ensures initializing_initializing { three_way Initializing Initializing ≡ Up }
    ensures initializing_up { three_way Initializing Up ≡ Up }
    ensures up_down { three_way Up Down ≡ Initializing }
    ensures up_initializing { three_way Up Initializing ≡ Up }
    ensures up_up { three_way Up Up ≡ Up }
    ensures same { is_same (Some (up_from 2).neighbour) level_two (hello_from 2 Up None) 0 ≡ true }
    ensures other_levels { is_same (Some (up_from 2).neighbour) both_levels (hello_from 2 Up None) 0
        ≡ false }
    ensures other_system { is_same (Some (up_from 2).neighbour) level_two (hello_from 3 Up None) 0
        ≡ false }
    ensures other_circuit { is_same (Some (up_from 2).neighbour) level_two (hello_from 2 Up None) 1
        ≡ false }
    ensures other_boot { is_same (Some (record (up_from 2).neighbour { boot = 1 })) level_two
        (hello_from 2 Up None) 0 ≡ false }
{}

/// A hello is due on a LAN where a neighbour is new and where one goes, and not where one is heard
/// again; point to point where another neighbour is kept. A CSNP set is due again after 10 seconds,
/// PSNPs after 2.
pub fn due_rows()
    ensures new { (answer_to (Pull 1) (lan_hello ∷ Pull 1 ∷ [])).reply
        ≡ Send (LanHello Two 513 (2 ∷ []) ∷ []) }
    ensures heard { (answer_to (Pull 1) (lan_hello ∷ Pull 1 ∷ lan_hello ∷ [])).reply ≡ Send [] }
    ensures gone { (answer_to (Pull 1) (Second ∷ Pull 1 ∷ lan_hello_of 64 1 ∷ [])).reply
        ≡ Send (LanHello Two 258 [] ∷ []) }
    ensures other { (answer_to (Pull 0)
        (hello_by 3 Down None ∷ Pull 0 ∷ hello Down None ∷ [])).reply
        ≡ Send (PointHello Initializing 257 (Some (3, 513)) ∷ []) }
    ensures csnp { (csnp_sent true quiet).csnp ≡ 10 }
    ensures owed { (answer_to (Pull 0) (seconds 1 (heard_of 131072 1 ∷ Pull 0
        ∷ heard_of 131072 1 ∷ Second ∷ events_up))).reply ≡ Send [] }
    ensures sent { (answer_to (Pull 0) (seconds 2 (heard_of 131072 1 ∷ Pull 0
        ∷ heard_of 131072 1 ∷ Second ∷ events_up))).reply
        ≡ Send (Psnp Two (entry_heard 1098 ∷ []) ∷ []) }
{}

/// What own LSPs say: the flags octet, prefixes that are leaked, the pseudonode of a LAN, and all
/// of them where the router is designated.
pub fn own_rows()
    ensures level_one { first_flags attached router (running level_one false) One true ≡ 1 }
    ensures level_two { first_flags attached router (running level_two false) Two true ≡ 3 }
    ensures attached { first_flags attached router (running both_levels false) One true ≡ 11 }
    ensures unattached { first_flags attached router (running both_levels false) Two true ≡ 3 }
    ensures overload { first_flags given router (running both_levels true) Two true ≡ 7 }
    ensures cut { first_flags given router (running both_levels false) Two false ≡ 7 }
    ensures leaks { with_leaks true ((64, record { metric = 5; down = false }) ∷ [])
        ((64, 7) ∷ (96, 8) ∷ [])
        ≡ (64, record { metric = 5; down = false })
        ∷ (96, record { metric = 8; down = true }) ∷ [] }
    ensures up { prefixes_of leaking router (running both_levels false) Two
        ≡ leaked_prefix false ∷ own_prefix ∷ [] }
    ensures down { prefixes_of leaking router leaker One ≡ leaked_prefix true ∷ own_prefix ∷ [] }
    ensures not_down { prefixes_of leaking router (running both_levels false) One
        ≡ own_prefix ∷ [] }
    ensures bit { reach_items ((10737434648, record { metric = 5; down = true }) ∷ [])
        ≡ record { code = 135; octets = 0 ∷ 0 ∷ 0 ∷ 5 ∷ 152 ∷ 10 ∷ 0 ∷ 1 ∷ [] } ∷ [] }
    ensures pseudonode { lan_node 10 (elected 2 513) ≡ (513, 10) ∷ [] }
    ensures no_pseudonode { lan_node 10 (elected 2 512) ≡ [] }
    ensures other_system { lan_node 10 (elected 2 769) ≡ [] }
    ensures parallel { put_nodes [] ((512, 10) ∷ (256, 3) ∷ (512, 4) ∷ [])
        ≡ (256, 3) ∷ (512, 10) ∷ (512, 4) ∷ [] }
    ensures designated { wanted given router (run (low_hello ∷ [])) Two ≡ lan_lsps }
{}

/// An own LSP that is outbid is issued above with what is wanted; one whose contents changed is
/// issued anew when its last issue is 5 seconds ago; one that is no longer wanted is purged; and at
/// the last number it is purged, and begins anew when its purge ends.
pub fn outbid_rows()
    ensures issued { own_after (heard_of 65536 10 ∷ Second ∷ events_up)
        ≡ Some (record (own_lsp 1200 0 1) { rank = 22; checksum = 11 }) }
    ensures early { rank_of (own_after (seconds 4 (changed_prefix ∷ Second ∷ []))) ≡ 2 }
    ensures last { rank_of (own_after (heard_of 65536 4294967295 ∷ Second ∷ events_up))
        ≡ 8589934591 }
    ensures held { rank_of (own_after (seconds 59 (heard_of 65536 4294967295 ∷ Second ∷ events_up)))
        ≡ 8589934591 }
    ensures begun { rank_of (own_after
        (seconds 60 (heard_of 65536 4294967295 ∷ Second ∷ events_up))) ≡ 2 }
    ensures pseudonode { rank_of (held_after 66048 (seconds 1 (lan_hello_of 1 2 ∷ []))) ≡ 2 }
    ensures withdrawn { rank_of (held_after 66048 (seconds 2 (lan_hello_of 1 2 ∷ []))) ≡ 3 }
    ensures changed { rank_of (own_after (seconds 5 (changed_prefix ∷ Second ∷ []))) ≡ 4 }
{}

/// The limits of this router: 200 neighbours on a LAN, 65,536 entries, 75 entries to an SNP, 256
/// fragments, and 4,096 LSP IDs that were let go.
pub fn limit_rows()
    ensures neighbours { many_drop (heard_from 1 199) 500 ≡ None }
    ensures too_many { many_drop (heard_from 1 200) 500 ≡ Some TooMany }
    ensures known { many_drop (heard_from 1 200) 7 ≡ None }
    ensures systems { full_drop (boots_from 1 255) 500 ≡ None }
    ensures full_boots { full_drop (boots_from 1 256) 500 ≡ Some TooMany }
    ensures remembered { full_drop (boots_from 1 256) 7 ≡ None }
    ensures entries { is_full (book_with (replicate 65535 (7, cell_of 4 5 9 [] 0 0)) 0) ≡ false }
    ensures full { is_full (book_with (replicate 65536 (7, cell_of 4 5 9 [] 0 0)) 0) ≡ true }
    ensures no_room { no_room (full_of 65536) 1 (record (lsp 6 9) { id = 8 }) ≡ true }
    ensures held { no_room (full_of 65536) 1 (lsp 6 9) ≡ false }
    ensures room { no_room (full_of 65535) 1 (record (lsp 6 9) { id = 8 }) ≡ false }
    ensures piece { length (pieces 2 (replicate 75 (entry 4 5))) ≡ 1 }
    ensures two_pieces { length (pieces 2 (replicate 76 (entry 4 5))) ≡ 2 }
    ensures fragments { holds_more 9 (filled_up 254) (record { code = 22; octets = replicate 8 0 })
        ≡ true }
    ensures last_fragment { holds_more 9 (filled_up 255)
        (record { code = 22; octets = replicate 8 0 }) ≡ false }
    ensures let_go { is_some (let_go (Some (replicate 4095 1)) 5) ≡ true }
    ensures all { let_go (Some (replicate 4096 1)) 5 ≡ None }
{}

/// The last second of an entry (ISO 10589 7.3.16.3, 7.3.16.4): a live LSP is purged and flooded, a
/// purge is erased and let go, and an empty entry is erased alone.
pub fn age_rows()
    ensures later { aged 7 (cell_of 4 5 2 (replicate 27 1) 2 6)
        ≡ Some (cell_of 4 5 1 (replicate 27 1) 2 6) }
    ensures purged { aged 7 (cell_of 4 5 1 (replicate 27 1) 2 6)
        ≡ Some (cell_of 5 0 60 header 7 0) }
    ensures erased { aged 7 (cell_of 5 0 1 header 2 6) ≡ None }
    ensures empty { aged 7 (record asked_for { left = 1 }) ≡ None }
    ensures kept { is_let_go (cell_of 4 5 1 (replicate 27 1) 2 6) ≡ false }
    ensures gone { is_let_go (cell_of 5 0 1 header 2 6) ≡ true }
    ensures nothing { is_let_go (record asked_for { left = 1 }) ≡ false }
{}

/// A circuit that closes loses its flags (own); one that opens point to point has SRM for every key
/// (ISO 10589 7.3.17), and a LAN nothing.
pub fn opening_rows()
    ensures closed { close before 1
        ≡ record (book_with ((7, cell_of 4 5 900 (replicate 27 1) 0 4) ∷ []) 4) { opened = 5 } }
    ensures opened { open_up (book_with ((7, cell_of 4 5 900 (replicate 27 1) 0 0) ∷ []) 4) 1
        ≡ book_with ((7, cell_of 4 5 900 (replicate 27 1) 2 0) ∷ []) 4 }
    ensures lan { open_up (book_with ((7, cell_of 4 5 900 (replicate 27 1) 0 0) ∷ []) 4) 2
        ≡ book_with ((7, cell_of 4 5 900 (replicate 27 1) 0 0) ∷ []) 4 }
    ensures empty { open_up (book_with ((7, asked_for) ∷ []) 4) 1
        ≡ book_with ((7, asked_for) ∷ []) 4 }
{}

/// What a CSNP says and hears (ISO 10589 7.3.15.2, 7.3.15.3): purges are listed and empty entries
/// aren't; a live LSP in its range that it doesn't list is missed.
pub fn range_rows()
    ensures listed { csnp_set Two (book_with ((7, cell_of 5 0 60 header 0 0) ∷ []) 4)
        ≡ Csnp Two 0 (2 ^ 64 - 1) (purge_entry ∷ []) ∷ [] }
    ensures empty { csnp_set Two (book_with ((7, asked_for) ∷ []) 4)
        ≡ Csnp Two 0 (2 ^ 64 - 1) [] ∷ [] }
    ensures missed { is_missed 7 7 [] 7 (cell_of 4 5 900 [] 0 0) ≡ true }
    ensures before { is_missed 8 9 [] 7 (cell_of 4 5 900 [] 0 0) ≡ false }
    ensures behind { is_missed 0 6 [] 7 (cell_of 4 5 900 [] 0 0) ≡ false }
    ensures named { is_missed 0 9 (entry 2 5 ∷ []) 7 (cell_of 4 5 900 [] 0 0) ≡ false }
    ensures purge { is_missed 0 9 [] 7 (cell_of 5 0 60 header 0 0) ≡ false }
{}
