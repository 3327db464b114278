//! The text of a loop body: its tokens, the loop body that it denotes, and the first token with which no loop body
//! continues.
//!
//! The laws are about values of definitions.
#![tactic(auto)]
