// No code: the table file and its admission. See specs/ and proofs/Laws/.
#![tactic(auto)]
