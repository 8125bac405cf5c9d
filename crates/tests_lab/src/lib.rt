//! Tests of networks that scripts lay out, over public calls alone: what no report tells of a network.
//! What a script and its report can say stands under tests/ at the top.
#![tactic(auto)]

#[cfg(test)]
mod played;
#[cfg(test)]
mod stopped;
