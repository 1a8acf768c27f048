//! Tests of folders in memory, of what a stop leaves of them, of small steps over them, of lanes, of plans, of components, and of
//! archives.
#![tactic(auto)]

#[cfg(test)]
mod archives;
#[cfg(test)]
mod components;
#[cfg(test)]
mod folders;
#[cfg(test)]
mod lanes;
#[cfg(test)]
mod plans;
#[cfg(test)]
mod steps;
