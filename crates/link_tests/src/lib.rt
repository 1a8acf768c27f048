//! Tests of workers, of tries over HTTP, of a piece's tries, of lanes that are fetched at once, of a component's turn, and of what the server of files answers.
#![tactic(auto)]

#[cfg(test)]
mod components;
#[cfg(test)]
mod crews;
#[cfg(test)]
mod fetches;
#[cfg(test)]
mod served;
#[cfg(test)]
mod tries;
#[cfg(test)]
mod turns;
