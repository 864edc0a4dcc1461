//! Tests of the public calls of the crates below the nodes: the outside, cryptography, frames,
//! elements, keys, key holders, the transfer of keys between processes, lines of entries, and what
//! storms draw.
#![tactic(auto)]

#[cfg(test)]
mod adapters;
#[cfg(test)]
mod blocks;
#[cfg(test)]
mod ccm;
#[cfg(test)]
mod elements;
#[cfg(test)]
mod entries;
#[cfg(test)]
mod fast_transition;
#[cfg(test)]
mod faults;
#[cfg(test)]
mod frames;
#[cfg(test)]
mod holders;
#[cfg(test)]
mod key_frames;
#[cfg(test)]
mod keys;
#[cfg(test)]
mod links;
#[cfg(test)]
mod macs;
#[cfg(test)]
mod management_bodies;
#[cfg(test)]
mod management_elements;
#[cfg(test)]
mod outside;
#[cfg(test)]
mod packet_numbers;
#[cfg(test)]
mod packets;
#[cfg(test)]
mod protected_bodies;
#[cfg(test)]
mod storms;
#[cfg(test)]
mod vectors;
