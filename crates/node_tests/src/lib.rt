//! Tests of nodes, octet by octet, and of their links.
#![tactic(auto)]

#[cfg(test)]
mod access_point;
#[cfg(test)]
mod air_frames;
#[cfg(test)]
mod embedded;
#[cfg(test)]
mod links;
#[cfg(test)]
mod management_frames;
#[cfg(test)]
mod management_protection;
#[cfg(test)]
mod management_transition;
#[cfg(test)]
mod mobility_vectors;
#[cfg(test)]
mod network;
#[cfg(test)]
mod protected_frames;
#[cfg(test)]
mod station;
#[cfg(test)]
mod steps;
#[cfg(test)]
mod transition_frames;
#[cfg(test)]
mod vectors;
