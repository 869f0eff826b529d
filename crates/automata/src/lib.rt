// No code: timed automata, runs, regions, closed lists. See specs/ and proofs/Laws/.
#![tactic(auto)]
