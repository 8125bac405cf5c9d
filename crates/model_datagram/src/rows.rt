//! PDUs that another router made (FRR isisd 8.4.4), and PDUs that each test refuses, worked out by
//! computation.
ghost use Rattle.std.specs.Prelude.{◌≡◌, ◌+◌, ◌*◌, ◌++◌, length, replicate, ◌-◌, ◌^◌, true, false, [], ◌∷◌, Some, None};
ghost use Rattle.isis_base.specs.declared.level.Level.TheVariants as level;
ghost use Rattle.isis_tlv.specs.Tlvs.{tlv_octets};
ghost use Rattle.model_router.specs.declared.drop_name.DropName.TheVariants as drop;
ghost use Rattle.model_router.specs.Events.{Refused, LspHeard, SnpHeard};
ghost use Rattle.model_router.specs.Rows.{config, circuit};
ghost use Rattle.model_datagram.specs.Reading.{read};
ghost use Rattle.model_datagram.specs.Rows.{from_two, frr_lsp, frr_purge, frr_csnp, frr_psnp, reader, level_one, no_keys, keys, other_keys, read_by, heard, entry, psnp, lsp, point_hello, lan_hello, down_heard, padding};
ghost use Rattle.model_datagram.specs.Tlvs.{snpa_tlvs, entry_tlvs};
ghost use Rattle.model_datagram.specs.Datagrams.{pdu_octets};
ghost use Rattle.model_datagram.specs.Frames.{framed};
ghost use Rattle.model_router.specs.Datagrams.{PointHello, LanHello, Csnp, Psnp};
ghost use Rattle.isis_tlv.specs.declared.three_way.Adj.TheVariants.{Down};

/// PDUs of FRR, by a reader without keys.
pub fn frr_rows()
    ensures lsp { read_by (reader no_keys) false frr_lsp
        ≡ LspHeard level.One from_two (heard 131072 2 42760 1179 frr_lsp) }
    ensures purge { read_by (reader no_keys) true frr_purge
        ≡ LspHeard level.Two from_two (heard 262656 5 48576 0 frr_purge) }
    ensures csnp { read_by (reader no_keys) false frr_csnp
        ≡ SnpHeard level.One from_two 2 (Some (0, 2 ^ 64 - 1)) (entry 1179 ∷ []) }
    ensures psnp { read_by (reader no_keys) true frr_psnp
        ≡ SnpHeard level.One from_two 1 None (entry 1178 ∷ []) }
{}

/// By a reader with the keys they say the same, and with another one nothing.
pub fn key_rows()
    ensures lsp { read_by (reader keys) false frr_lsp ≡ read_by (reader no_keys) false frr_lsp }
    ensures purge { read_by (reader keys) true frr_purge ≡ read_by (reader no_keys) true frr_purge }
    ensures csnp { read_by (reader keys) false frr_csnp ≡ read_by (reader no_keys) false frr_csnp }
    ensures psnp { read_by (reader keys) true frr_psnp ≡ read_by (reader no_keys) true frr_psnp }
    ensures other_key { read_by (reader other_keys) false frr_psnp ≡ Refused drop.Auth }
{}

/// The causes of a drop, each by a datagram that fails its test and none before it.
pub fn drop_rows()
    ensures frame { read config (circuit false) (73 ∷ 83 ∷ 85 ∷ 50 ∷ 0 ∷ []) ≡ Refused drop.Frame }
    ensures version { read config (circuit false) (73 ∷ 83 ∷ 85 ∷ 49 ∷ []) ≡ Refused drop.Version }
    ensures pdu { read_by (reader no_keys) false [] ≡ Refused drop.Pdu }
    ensures too_long { read_by (reader no_keys) false (psnp (padding 189)) ≡ Refused drop.TooLong }
    ensures long { read_by (reader no_keys) false (psnp (padding 188))
        ≡ SnpHeard level.One from_two 2 None [] }
    ensures lan_hello { read_by (reader no_keys) false lan_hello ≡ Refused drop.WrongKind }
    ensures point_hello { read_by (reader no_keys) true (point_hello []) ≡ Refused drop.WrongKind }
    ensures wrong_level { read_by config false (psnp []) ≡ Refused drop.WrongLevel }
    ensures auth { read_by (reader keys) false (psnp []) ≡ Refused drop.Auth }
    ensures value { read_by (reader no_keys) false (psnp (tlv_octets 9 (0 ∷ [])))
        ≡ Refused drop.Value }
    ensures hello_value { read_by (reader no_keys) false (point_hello (tlv_octets 240 (3 ∷ [])))
        ≡ Refused drop.Value }
    ensures zero_number { read_by (reader no_keys) false (lsp 0 0 0) ≡ Refused drop.ZeroNumber }
    ensures zero_checksum { read_by (reader no_keys) false (lsp 1200 1 0)
        ≡ Refused drop.BadChecksum }
    ensures bad_checksum { read_by (reader no_keys) false (lsp 1200 1 1)
        ≡ Refused drop.BadChecksum }
{}

/// Where two tests fail the earlier one is the cause.
pub fn order_rows()
    ensures long_before_level { read_by config false (psnp (padding 189)) ≡ Refused drop.TooLong }
    ensures kind_before_level { read_by level_one false lan_hello ≡ Refused drop.WrongKind }
    ensures level_before_key { read_by (record config { keys = keys }) false (psnp [])
        ≡ Refused drop.WrongLevel }
    ensures key_before_value { read_by (reader keys) false (psnp (tlv_octets 9 (0 ∷ [])))
        ≡ Refused drop.Auth }
    ensures key_before_number { read_by (reader keys) false (lsp 0 0 0) ≡ Refused drop.Auth }
    ensures number_before_checksum { read_by (reader no_keys) false (lsp 1200 0 1)
        ≡ Refused drop.ZeroNumber }
{}

/// A three-way TLV that has a state alone counts as extended circuit ID 0, and of two such TLVs the
/// first counts.
pub fn hello_rows()
    ensures bare { read_by (reader no_keys) false (point_hello (tlv_octets 240 (2 ∷ [])))
        ≡ down_heard 0 }
    ensures first { read_by (reader no_keys) false
        (point_hello (tlv_octets 240 (2 ∷ 0 ∷ 0 ∷ 0 ∷ 7 ∷ []) ++ tlv_octets 240 (0 ∷ [])))
        ≡ down_heard 7 }
{}

/// A TLV holds 42 SNPAs and 15 entries.
pub fn piece_rows()
    ensures snpas { length (snpa_tlvs (replicate 42 7)) ≡ 2 + 42 * 6 }
    ensures more_snpas { length (snpa_tlvs (replicate 43 7)) ≡ 2 + 2 + 43 * 6 }
    ensures entries { length (entry_tlvs (replicate 15 (entry 7))) ≡ 2 + 15 * 16 }
    ensures more_entries { length (entry_tlvs (replicate 16 (entry 7))) ≡ 2 + 2 + 16 * 16 }
{}

/// What system 1 of L2 sends without keys, octet by octet (ISO 10589 9.6, 9.7, 9.11, 9.13): a frame
/// of system 2 (own), its hello in Down on circuit 1, its hello on LAN 2 where it is designated, a
/// CSNP and a PSNP.
pub fn sent_rows()
    ensures frame { framed 2 3 (7 ∷ [])
        ≡ 73 ∷ 83 ∷ 85 ∷ 50 ∷ 0 ∷ 0 ∷ 0 ∷ 0 ∷ 0 ∷ 2 ∷ 0 ∷ 0 ∷ 0 ∷ 3 ∷ 7 ∷ [] }
    ensures point_hello { pdu_octets config 0 (circuit false) (PointHello Down 257 None)
        ≡ 131 ∷ 20 ∷ 1 ∷ 0 ∷ 17 ∷ 1 ∷ 0 ∷ 0 ∷ 2 ∷ 0 ∷ 0 ∷ 0 ∷ 0 ∷ 0 ∷ 1 ∷ 0 ∷ 30 ∷ 0 ∷ 36 ∷ 1
        ∷ 1 ∷ 4 ∷ 3 ∷ 73 ∷ 0 ∷ 1 ∷ 129 ∷ 1 ∷ 204 ∷ 240 ∷ 5 ∷ 2 ∷ 0 ∷ 0 ∷ 1 ∷ 1 ∷ [] }
    ensures lan_hello { pdu_octets config 1 (circuit true) (LanHello level.Two 258 (2 ∷ []))
        ≡ 131 ∷ 27 ∷ 1 ∷ 0 ∷ 16 ∷ 1 ∷ 0 ∷ 0 ∷ 2 ∷ 0 ∷ 0 ∷ 0 ∷ 0 ∷ 0 ∷ 1 ∷ 0 ∷ 30 ∷ 0 ∷ 44 ∷ 64
        ∷ 0 ∷ 0 ∷ 0 ∷ 0 ∷ 0 ∷ 1 ∷ 2 ∷ 1 ∷ 4 ∷ 3 ∷ 73 ∷ 0 ∷ 1 ∷ 129 ∷ 1 ∷ 204
        ∷ 6 ∷ 6 ∷ 0 ∷ 0 ∷ 0 ∷ 0 ∷ 0 ∷ 2 ∷ [] }
    ensures csnp { pdu_octets config 0 (circuit false)
        (Csnp level.Two 0 (2 ^ 64 - 1) (entry 1179 ∷ []))
        ≡ 131 ∷ 33 ∷ 1 ∷ 0 ∷ 25 ∷ 1 ∷ 0 ∷ 0 ∷ 0 ∷ 51 ∷ 0 ∷ 0 ∷ 0 ∷ 0 ∷ 0 ∷ 1 ∷ 0
        ∷ 0 ∷ 0 ∷ 0 ∷ 0 ∷ 0 ∷ 0 ∷ 0 ∷ 0 ∷ 255 ∷ 255 ∷ 255 ∷ 255 ∷ 255 ∷ 255 ∷ 255 ∷ 255
        ∷ 9 ∷ 16 ∷ 4 ∷ 155 ∷ 0 ∷ 0 ∷ 0 ∷ 0 ∷ 0 ∷ 2 ∷ 0 ∷ 0 ∷ 0 ∷ 0 ∷ 0 ∷ 1 ∷ 167 ∷ 8 ∷ [] }
    ensures psnp { pdu_octets config 0 (circuit false) (Psnp level.Two (entry 1179 ∷ []))
        ≡ 131 ∷ 17 ∷ 1 ∷ 0 ∷ 27 ∷ 1 ∷ 0 ∷ 0 ∷ 0 ∷ 35 ∷ 0 ∷ 0 ∷ 0 ∷ 0 ∷ 0 ∷ 1 ∷ 0
        ∷ 9 ∷ 16 ∷ 4 ∷ 155 ∷ 0 ∷ 0 ∷ 0 ∷ 0 ∷ 0 ∷ 2 ∷ 0 ∷ 0 ∷ 0 ∷ 0 ∷ 0 ∷ 1 ∷ 167 ∷ 8 ∷ [] }
{}
