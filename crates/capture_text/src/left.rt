//! What is still to come of a text.

use crate::backup::Backup;
use ipv6_reach::Route6;
use route_table::Route;
use std::alloc::Global;

/// How many lines of the input were kept, and how many skipped.
#[derive(Clone, Copy, Debug, PartialEq, Eq)]
pub(crate) struct Counts {
    pub kept: usize,
    pub skipped: usize,
}

/// The text of IPv4 routes: its head, where it is still to come, whether the system is attached, and the routes behind it.
#[derive(Drop)]
pub(crate) struct RoutesText<'t> {
    pub head: Option<Counts>,
    pub attached: bool,
    pub routes: &'t [Route],
}

/// The text of IPv6 routes: its head, where it is still to come, and the routes behind it.
#[derive(Drop)]
pub(crate) struct Routes6Text<'t> {
    pub alloc: Global,
    pub head: Option<Counts>,
    pub routes: &'t [Route6],
}

/// The text of alternates: its head, where it is still to come, and the targets and hops behind it.
#[derive(Drop)]
pub(crate) struct AlternateText<'t> {
    pub head: Option<Counts>,
    pub backups: &'t [Backup],
}
