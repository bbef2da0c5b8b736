#![tactic(auto)]

// The promise, demand 3: between two machines, and so between two whole nodes, under named premises on the link, the
// receiver has delivered exactly the first payloads that the sender accepted, each once and in order, and confirmed ≤
// delivered ≤ accepted. Stated of machines in specs/Link.antt (`Promise`) and of nodes, over the definitions that the
// public calls' contracts cite, in specs/Nodes.antt (`NodesPromise`); both proved in proofs/Promised.antt.
// docs/PROMISE.md reads the statement clause by clause. No code.
