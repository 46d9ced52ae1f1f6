// That no premise of the demands is empty: a run that meets them, worked out. Its own crate, since computing it takes longer than all proofs of
// the demands.
#![tactic(auto)]

ghost use Rattle.worked.specs.Worked.{NotVacuous};

// A run that meets every premise.
pub fn not_vacuous()
    ensures { NotVacuous }
{}
