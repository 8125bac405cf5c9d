//! Graphs from texts, and hops as texts. A node below 100 is a system, 101 pseudonode 1 of system 1.
use isis_base::{NodeId, SystemId};
use spf_tree::{Graph, Hops, Row, usable};
use std::alloc::{AllocError, Global};

/// A node by its number.
pub fn node(number: u8) -> NodeId {
    NodeId {
        system: SystemId([0, 0, 0, 0, 0, number % 100]),
        pseudonode: number / 100,
    }
}

/// The rows of a word `ONE-OTHER:METRIC:BACK`, one each way.
fn add_rows(rows: &mut Vec<Row>, word: &str) -> Option<()> {
    let (one, rest) = word.split_once('-')?;
    let (other, rest) = rest.split_once(':')?;
    let (metric, back) = rest.split_once(':')?;
    let (from, to) = (
        node(one.parse::<u8>().ok()?),
        node(other.parse::<u8>().ok()?),
    );
    let metric = metric.parse::<u32>().ok()?;
    rows.push(Row { from, to, metric }).ok()?;
    let (from, to) = (to, from);
    let metric = back.parse::<u32>().ok()?;
    rows.push(Row { from, to, metric }).ok()
}

/// The usable rows of words from root 1, where a system may be overloaded.
pub fn graph(alloc: Global, words: &str, overloaded: u8) -> Option<Graph> {
    let mut rows = Vec::new(alloc);
    for word in words.split(' ') {
        add_rows(&mut rows, word)?;
    }
    if rows.len() >= 4_294_967_296 {
        return None;
    }
    usable(alloc, rows.as_slice(), &[node(overloaded)], node(1)).ok()
}

/// Puts hops behind a text: the numbers of the systems, with a comma between.
pub fn add_hops(text: &mut String, hops: &Hops) -> Result<(), AllocError> {
    for place in 0..hops.len() {
        if place > 0 {
            write!(text, ",")?;
        }
        if let Some(system) = hops.get(place) {
            let number = system.0[5];
            write!(text, "{number}")?;
        }
    }
    Ok(())
}
