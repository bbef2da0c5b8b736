// What waits to be handed out: four queues of Resets, Urgents, retransmissions and data, linked both ways in
// the book so that anything can leave from the middle, and a ring of at most 32 acknowledgements in the node; and what
// was handed out last and is still under way.
// Proved: each function is the definition of specs/ that it cites, for every memory. specs/Order.antt says what that
// means for the order of waiting, where the links are those of queues.
#![tactic(auto)]

pub mod queues; // queues.rt: the four queues in the book
pub mod acks; // acks.rt: the ring of acknowledgements in the node
pub mod port; // port.rt: the frame under way
