//! Which stations and seats may cross threads: a station may be shared, and a seat or an administrator handed on, where the core, its calls and its
//! replies may be handed on and the decider may be shared. This crate has proofs alone.
#![tactic(auto)]
