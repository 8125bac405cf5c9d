//! Tests of the codec: what no clause says of texts, TLVs, PDUs, checksums, digests and the outside.
//!
//! There is nothing here but tests, so they are proved against the contracts of the crates that they are of.
//! Expected values are from outside: the scripts beside src/ make them with Python's own modules.
//!
//! - `base`: isis_base
//! - `checksum`: iso_checksum; `checksum_vectors.py` looks at its rows
//! - `says`: the numbers that a value says; `tlvs`: isis_tlv, with the rows of `tlvs_vectors.py`
//! - `pdus`: isis_pdu, with the rows of `pdus_vectors.py`
//! - `auth`: hmac_auth, with the rows of `auth_vectors.py`
//! - `edge`: isis_edge
#![tactic(auto)]

#[cfg(test)]
mod auth;
#[cfg(test)]
mod base;
#[cfg(test)]
mod checksum;
#[cfg(test)]
mod edge;
#[cfg(test)]
mod pdus;
#[cfg(test)]
mod says;
#[cfg(test)]
mod tlvs;
