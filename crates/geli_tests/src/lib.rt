//! Whole runs over objects in memory. All that is expected comes from the texts of the formats, from
//! public standards, or from another implementation.
#![tactic(auto)]

#[cfg(test)]
mod common;
#[cfg(test)]
mod dump;
#[cfg(test)]
mod eject;
#[cfg(test)]
mod failures;
#[cfg(test)]
mod files;
#[cfg(test)]
mod kinds;
#[cfg(test)]
mod lines;
#[cfg(test)]
mod metadata;
#[cfg(test)]
mod order;
#[cfg(test)]
mod replies;
#[cfg(test)]
mod words;
