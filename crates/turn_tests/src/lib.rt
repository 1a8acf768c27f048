//! Tests of a job's turn, over a folder, dialers and tools in memory.
#![tactic(auto)]

#[cfg(test)]
mod turns;
