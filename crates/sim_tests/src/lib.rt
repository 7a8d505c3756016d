//! Tests of `am32sim`'s whole runs: journals of small traces, statuses, options, and settings in the flash.
#![tactic(auto)]

#[cfg(test)]
mod crossings;
#[cfg(test)]
mod drives;
#[cfg(test)]
mod replies;
#[cfg(test)]
mod runs;
#[cfg(test)]
mod words;
