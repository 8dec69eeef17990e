//! What is told of two records that were followed on one genesis.

/// What a command tells of two records that were followed.
#[derive(Clone, Copy)]
pub enum Report {
    /// The offences of their votes and the verdict on them, as `forensic` does.
    Findings,
    /// The attester slashings that they give, as `slasher` does.
    Slashings,
}
