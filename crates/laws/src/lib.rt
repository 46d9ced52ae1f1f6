#![tactic(auto)]

// What is known by a verdict and by soundness, each law once: specs/ has the records, proofs/ their proofs. No function stands here.
