//! The folder on the disk and child programs, on the real thing.
#![tactic(auto)]

#[cfg(test)]
mod child_tests;
#[cfg(test)]
mod counting;
#[cfg(test)]
mod ffmpeg_tests;
#[cfg(test)]
mod folder_tests;
#[cfg(test)]
mod memory_tests;
