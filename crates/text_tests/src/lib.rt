//! Tests of the texts of traces and journals, by public names.
#![tactic(auto)]

#[cfg(test)]
mod lines;
#[cfg(test)]
mod words;
