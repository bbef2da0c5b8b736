#![tactic(auto)]

// Laws over the contracts' own text: for each public function only one outcome is possible, and a refused call leaves
// all as it was. No code: what an outcome is in specs/Outcome.antt, the laws in proofs/, a band of the house a file.
