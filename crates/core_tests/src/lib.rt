//! Tests of the registers, the gates, the interrupts, the handlers' steps and the run, by their public names.
#![tactic(auto)]

#[cfg(test)]
mod crossings;
#[cfg(test)]
mod drives;
#[cfg(test)]
mod gate_programs;
#[cfg(test)]
mod interrupts;
#[cfg(test)]
mod registers;
#[cfg(test)]
mod replies;
#[cfg(test)]
mod runs;
#[cfg(test)]
mod steps;
