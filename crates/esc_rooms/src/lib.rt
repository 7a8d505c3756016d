//! How the core's handlers keep the laws of a journal. Proofs alone, and no law: nothing that `Legal` means rests on them.
#![tactic(auto)]
