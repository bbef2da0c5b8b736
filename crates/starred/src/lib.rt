#![tactic(auto)]

// The starred numbers of docs/RULES.md: one table, one claim, over the definitions that the contracts of the check
// byte and the window cite. There is no code here.
// Proved: the claim of specs/Worked.antt, in proofs/Starred.antt.
