#![tactic(auto)]

// Words and laws that know nothing of the engine: specs/ has the definitions, proofs/ their laws. No function stands here.
