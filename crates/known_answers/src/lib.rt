//! Ciphers, codes, keys, sectors and command lines against standards and other implementations.
#![tactic(auto)]

#[cfg(test)]
mod aes;
#[cfg(test)]
mod cbc;
#[cfg(test)]
mod codes;
#[cfg(test)]
mod common;
#[cfg(test)]
mod geometries;
#[cfg(test)]
mod hashes;
#[cfg(test)]
mod pieces;
#[cfg(test)]
mod rings;
#[cfg(test)]
mod sectors;
#[cfg(test)]
mod slots;
#[cfg(test)]
mod user_keys;
#[cfg(test)]
mod words;
#[cfg(test)]
mod xts;
