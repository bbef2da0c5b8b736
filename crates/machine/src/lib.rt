#![tactic(auto)]

// The paper as a machine: a node in lists and records alone (specs/Machine.antt). What a reader must believe of demand
// 2 stands there. That the nodes of crates/node are this machine is proved in crates/refinement. No code: definitions,
// and laws of them.
