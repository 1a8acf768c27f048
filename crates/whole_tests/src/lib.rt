//! Tests that cross crates: what stands in memory elsewhere is tried here over the real thing.
#![tactic(auto)]

#[cfg(test)]
mod socket_tests;
