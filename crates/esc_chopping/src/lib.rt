//! From what a run gives for each machine step to `Chopped` of its journal. Proofs alone, and no law: nothing that `Legal` means
//! rests on them.
#![tactic(auto)]
