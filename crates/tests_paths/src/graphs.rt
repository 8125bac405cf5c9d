//! Graphs from texts, and hops as texts. A node below 100 is a system, 101 pseudonode 1 of system 1.
use isis_base::{NodeId, SystemId};
use spf_tree::{Graph, Hops, Row, usable};
use std::alloc::{AllocError, Global};

/// A node by its number.
pub fn node(number: u8) -> NodeId {
    NodeId {
        system: SystemId([0, 0, 0, 0, 0, number % 100]),
        pseudonode: number / 100,
    }
}

/// The row of a word `FROM-TO:METRIC`.
fn row_of(word: &str) -> Option<Row> {
    let (from, rest) = word.split_once('-')?;
    let (to, metric) = rest.split_once(':')?;
    Some(Row {
        from: node(from.parse::<u8>().ok()?),
        to: node(to.parse::<u8>().ok()?),
        metric: metric.parse::<u32>().ok()?,
    })
}

/// The rows of words.
pub fn rows_of(alloc: Global, words: &str) -> Option<Vec<Row>> {
    let mut rows = Vec::new(alloc);
    for word in words.split(' ') {
        rows.push(row_of(word)?).ok()?;
    }
    Some(rows)
}

/// The usable rows of words from root 1, where a system may be overloaded.
pub fn graph(alloc: Global, words: &str, overloaded: Option<u8>) -> Option<Graph> {
    let rows = rows_of(alloc, words)?;
    if rows.len() >= 4_294_967_296 {
        return None;
    }
    let graph = match overloaded {
        Some(system) => usable(alloc, rows.as_slice(), &[node(system)], node(1)),
        None => usable(alloc, rows.as_slice(), &[], node(1)),
    };
    graph.ok()
}

/// Puts hops behind a text: the numbers of the systems, with a comma between.
pub fn add_hops(text: &mut String, hops: &Hops) -> Result<(), AllocError> {
    for place in 0..hops.len() {
        if place > 0 {
            write!(text, ",")?;
        }
        if let Some(system) = hops.get(place) {
            let number = system.0[5];
            write!(text, "{number}")?;
        }
    }
    Ok(())
}
