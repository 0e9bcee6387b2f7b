//! Disks in memory, and providers, suspended providers and layers over them, by their calls.
#![tactic(auto)]

#[cfg(test)]
mod calls;
#[cfg(test)]
mod common;
#[cfg(test)]
mod layers;
#[cfg(test)]
mod memory;
#[cfg(test)]
mod providers;
#[cfg(test)]
mod suspended;
