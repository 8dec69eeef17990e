//! Definitions of the attester slashings that two histories on one genesis give, and their laws. No program is in it.
#![tactic(auto)]

mod laws;

pub use laws::{
    carried_votes_name_attestations, events_stay_in_order, indices_are_sorted,
    offences_have_operations, operations_are_carried, operations_are_held,
    operations_are_processed, operations_are_slashable, operations_are_taken, operations_are_valid,
    operations_are_written, operations_differ, operations_name_offenders,
};
