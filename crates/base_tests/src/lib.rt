//! Tests of texts, numbers, trees, items, and how formats are sorted.
#![tactic(auto)]

#[cfg(test)]
mod items;
#[cfg(test)]
mod sorted;
#[cfg(test)]
mod texts;
#[cfg(test)]
mod trees;
