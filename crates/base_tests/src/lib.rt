//! Tests of the crates below the core, by their public names.
#![tactic(auto)]

#[cfg(test)]
mod commands;
#[cfg(test)]
mod control;
#[cfg(test)]
mod crossings;
#[cfg(test)]
mod detection;
#[cfg(test)]
mod flashes;
#[cfg(test)]
mod frames;
#[cfg(test)]
mod outside;
#[cfg(test)]
mod packets;
#[cfg(test)]
mod pulses;
#[cfg(test)]
mod replies;
#[cfg(test)]
mod sectors;
#[cfg(test)]
mod settings;
#[cfg(test)]
mod windows;
