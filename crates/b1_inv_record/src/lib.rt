//! What ties every reached state to its record: definitions alone.
#![tactic(auto)]
