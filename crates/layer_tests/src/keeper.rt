//! Tests of the keeper of states.

mod adder;
mod chain;
mod states;
