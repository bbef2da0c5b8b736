#![tactic(auto)]

// Nodes that setup and calls can give. What holds of all of them is `Good` (specs/Good.antt); that setup gives it and
// every call keeps it is `ReachIsGood` (specs/Reaching.antt, proved a call a file). On such nodes no case arises that
// is there for garbage alone (specs/Corners.antt). No code: laws over the calls' definitions.
