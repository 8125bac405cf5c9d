//! Tests of schedules of losses, over public calls alone: that they are played to an answer, which no clause says.
#![tactic(auto)]

#[cfg(test)]
mod toys;
