//! What a step leaves, for the laws over every list of steps: which entries an event brings into a queue, which parts it
//! changes, and what holds of every part when a bus begins.
#![tactic(auto)]
