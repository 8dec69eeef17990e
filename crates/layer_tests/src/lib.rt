//! Tests of the public calls of all layers, in a crate of their own, so that each layer is proved once.
#![tactic(auto)]

#[cfg(test)]
mod blocks;
#[cfg(test)]
mod changes;
#[cfg(test)]
mod configuration;
#[cfg(test)]
mod containers;
#[cfg(test)]
mod deliveries;
#[cfg(test)]
mod epoch_duties;
#[cfg(test)]
mod genesis;
#[cfg(test)]
mod hashing;
#[cfg(test)]
mod keeper;
#[cfg(test)]
mod lanes;
#[cfg(test)]
mod outside;
#[cfg(test)]
mod records;
#[cfg(test)]
mod registries;
#[cfg(test)]
mod safety;
#[cfg(test)]
mod shuffles;
#[cfg(test)]
mod small_state;
#[cfg(test)]
mod spans;
#[cfg(test)]
mod ssz;
#[cfg(test)]
mod statuses;
#[cfg(test)]
mod totals;
#[cfg(test)]
mod trees;
#[cfg(test)]
mod votes;
#[cfg(test)]
mod words;
