// The written stages of document 01 are definitions, in specs/, and laws on them, in proofs/: there is nothing here to run.
#![tactic(auto)]
