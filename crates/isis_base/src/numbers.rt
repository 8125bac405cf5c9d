//! Numbers of the protocol and limits that several crates go by, each with one name (`number_laws` pins them).

/// How many octets an LSP's header has (ISO 10589 9.8).
pub const LSP_HEADER: usize = 27;

/// The place of an LSP's remaining lifetime (ISO 10589 9.8).
pub const LSP_LIFETIME: usize = 10;

/// The place of an LSP's ID, from which on its checksum counts (ISO 10589 7.3.11, 9.8).
pub const LSP_SUMMED: usize = 12;

/// The place of an LSP's checksum (ISO 10589 9.8).
pub const LSP_CHECKSUM: usize = 24;

/// The overload bit of an LSP's flags (ISO 10589 9.8).
pub const OVERLOAD: u8 = 0x04;

/// The bit of an LSP's flags that says it is attached by the default metric (ISO 10589 9.8).
pub const ATTACHED: u8 = 0x08;

/// The greatest metric of a circuit (RFC 5305 3).
pub const CIRCUIT_METRIC: u32 = 16_777_215;

/// The greatest metric of a prefix (RFC 5305 4).
pub const PREFIX_METRIC: u32 = 4_261_412_864;

/// How many octets stand before the PDU in a circuit's datagram (own).
pub const FRAME: usize = 14;

/// The most entries of a CSNP or PSNP (own).
pub const SNP_ENTRIES: usize = 75;

/// The most entries of a level's database (own).
pub const ENTRY_LIMIT: usize = 65_536;

/// The most circuits of a router (own).
pub const CIRCUIT_LIMIT: usize = 64;

/// The most prefixes of a router (own).
pub const PREFIX_LIMIT: usize = 4_096;

/// The greatest boot number (own).
pub const BOOT_LIMIT: u32 = 16_777_215;
