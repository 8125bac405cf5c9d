//! The codes of the TLVs that this router reads or writes (`code_laws` pins them).

/// Area addresses (ISO 10589 9.5).
pub const AREAS: u8 = 1;

/// SNPAs heard on a LAN (ISO 10589 9.5).
pub const SNPAS: u8 = 6;

/// LSP entries of sequence number PDUs (ISO 10589 9.10).
pub const ENTRIES: u8 = 9;

/// Authentication information (ISO 10589 9.5, RFC 5304 2).
pub const AUTHENTICATION: u8 = 10;

/// Neighbours (RFC 5305 3).
pub const NEIGHBOURS: u8 = 22;

/// The protocols that a router speaks (RFC 1195 5.3).
pub const PROTOCOLS: u8 = 129;

/// IPv4 addresses of a router (RFC 1195 5.3).
pub const ADDRESSES: u8 = 132;

/// IPv4 prefixes (RFC 5305 4).
pub const PREFIXES: u8 = 135;

/// The three-way handshake (RFC 5303 3.1).
pub const THREE_WAY: u8 = 240;
