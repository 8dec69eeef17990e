//! The law of what two records convict of.

ghost use Rattle.beacon_node.specs.laws.Convictions.{ConvictsOfTheRecords};

/// What `forensic` and `slasher` write is found out of exactly the files that they read: the histories of their events, the offences of these,
/// the verdict on them, and behind a conflict the third of the total that the offenders have; and the attester slashings that they give, which
/// accuse the offenders.
pub fn findings_are_of_the_records()
    ensures { ConvictsOfTheRecords }
{}
