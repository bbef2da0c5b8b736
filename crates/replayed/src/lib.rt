#![tactic(auto)]

// A replay is so many single calls: of a good trace file, the first record is a setup and each one after it is one call
// of the node, with what that call answers and leaves by its own contract; and with buffers as long as any table asks
// for no record answers 6. Stated in specs/Replayed.antt, proved in proofs/Replaying.antt. No code.
