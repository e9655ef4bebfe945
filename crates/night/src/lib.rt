// The starred night cases of 01, over the solver's rules and the sheet's: specs/Cases.antt has the list,
// proofs/Night.antt the one theorem. No code.
#![tactic(auto)]
