#![tactic(auto)]

// Which machine a node's memory stands for (specs/Standing.antt), and that every call on a node that setup and calls
// can give is the machine's: what it answers, and what it leaves (`Refines`, proved a call a file). No code: laws over
// the calls' definitions.
