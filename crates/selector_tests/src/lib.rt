//! Tests of patterns, of the reading of selectors and of what they choose.
#![tactic(auto)]

#[cfg(test)]
mod choices;
#[cfg(test)]
mod patterns;
#[cfg(test)]
mod selectors;
#[cfg(test)]
mod special_names;
