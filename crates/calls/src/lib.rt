// No code: run lists, region lists, following, what is printed. See specs/ and proofs/Laws/.
#![tactic(auto)]
