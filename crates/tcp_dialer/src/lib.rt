//! Connections over sockets: the dialer that the network's own streams stand behind.
#![tactic(auto)]

mod dialer;

pub use dialer::TcpDialer;

#[cfg(test)]
mod tests;
