//! Messages of NBD against those of libnbd and nbdkit, and sessions over objects in memory.
#![tactic(auto)]

#[cfg(test)]
mod common;
#[cfg(test)]
mod failures;
#[cfg(test)]
mod messages;
#[cfg(test)]
mod requests;
#[cfg(test)]
mod room;
#[cfg(test)]
mod sessions;
#[cfg(test)]
mod vectors;
#[cfg(test)]
mod waiting;
#[cfg(test)]
mod zeros;
