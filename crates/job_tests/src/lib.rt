//! Tests of jobs: their names, their children, their pieces, and which of them clash.
#![tactic(auto)]

#[cfg(test)]
mod asked;
#[cfg(test)]
mod children;
#[cfg(test)]
mod clashes;
#[cfg(test)]
mod infos;
#[cfg(test)]
mod limits;
#[cfg(test)]
mod names;
#[cfg(test)]
mod pieces;
