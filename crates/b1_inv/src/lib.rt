//! What holds of every reached state of a bus: how far open commands are, what stands staged for them, which stamps and
//! keys are new, which notices are queued, and how references are counted. This crate only says it; the crates of laws
//! prove it of every list of steps.
#![tactic(auto)]
