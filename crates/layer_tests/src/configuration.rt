use bc_preset::{Config, ConfigFault, Key};
use std::alloc::{AllocError, Global};
use std::test::Fail;

const PLAIN: [&[u8]; 8] = [
    b"PRESET_BASE: minimal",
    b"SECONDS_PER_SLOT: 6",
    b"MIN_VALIDATOR_WITHDRAWABILITY_DELAY: 256",
    b"SHARD_COMMITTEE_PERIOD: 64",
    b"EJECTION_BALANCE: 16000000000",
    b"MIN_PER_EPOCH_CHURN_LIMIT: 4",
    b"CHURN_LIMIT_QUOTIENT: 32",
    b"PROPOSER_SCORE_BOOST: 40",
];

/// The plain lines with this one in the place of the line of that number, each with the end.
fn with_line(alloc: Global, number: usize, line: &[u8], end: &[u8]) -> Result<Vec<u8>, AllocError> {
    let mut bytes = Vec::new(alloc);
    for (i, plain) in PLAIN.iter().enumerate() {
        if i == number {
            bytes.extend_from_slice(line)?;
        } else {
            bytes.extend_from_slice(plain)?;
        }
        bytes.extend_from_slice(end)?;
    }
    Ok(bytes)
}

fn fault_of(bytes: &[u8]) -> Option<ConfigFault> {
    match Config::read(bytes) {
        Ok(_) => None,
        Err(fault) => Some(fault),
    }
}

/// The fault of the plain lines with this one in the place of the line of that number.
fn fault_with(
    alloc: Global,
    number: usize,
    line: &[u8],
    end: &[u8],
) -> Result<Option<ConfigFault>, AllocError> {
    let bytes = with_line(alloc, number, line, end)?;
    Ok(fault_of(&bytes))
}

/// The number of a line, what takes its place, and the fault that this makes.
static CASES: [(usize, &[u8], Option<ConfigFault>); 18] = [
    (0, b"PRESET_BASE: Minimal", Some(ConfigFault::BadPreset(1))),
    (
        0,
        b"PRESET_BASE: 'minimal' x",
        Some(ConfigFault::BadLine(1)),
    ),
    (0, b"PRESET_BASE: 'minimal\"", Some(ConfigFault::BadLine(1))),
    (
        0,
        b"\xef\xbb\xbfPRESET_BASE: minimal",
        Some(ConfigFault::BadLine(1)),
    ),
    (0, b"PRESET_BASE: 'minimal'  # x", None),
    (1, b"SECONDS_PER_SLOT:\t\"6\"# y", None),
    (
        1,
        b"SECONDS_PER_SLOT: 6# x",
        Some(ConfigFault::BadNumber(2)),
    ),
    (1, b"SECONDS_PER_SLOT: 06", Some(ConfigFault::BadNumber(2))),
    (
        1,
        b"SECONDS_PER_SLOT: ' 6'",
        Some(ConfigFault::BadNumber(2)),
    ),
    (1, b"SECONDS_PER_SLOT:", Some(ConfigFault::BadNumber(2))),
    (1, b"SECONDS_PER_SLOT:6", Some(ConfigFault::BadLine(2))),
    (1, b" SECONDS_PER_SLOT: 6", Some(ConfigFault::BadLine(2))),
    (
        1,
        b"SECONDS_PER_SLOT: 0",
        Some(ConfigFault::OutOfRange(Key::SecondsPerSlot)),
    ),
    (
        3,
        b"# none",
        Some(ConfigFault::Missing(Key::ShardCommitteePeriod)),
    ),
    (4, b"EJECTION_BALANCE: 18446744073709551615", None),
    (
        4,
        b"EJECTION_BALANCE: 18446744073709551616",
        Some(ConfigFault::BadNumber(5)),
    ),
    (
        7,
        b"PROPOSER_SCORE_BOOST: +40",
        Some(ConfigFault::BadNumber(8)),
    ),
    (
        7,
        b"PROPOSER_SCORE_BOOST: 40\nCHURN_LIMIT_QUOTIENT: x",
        Some(ConfigFault::Twice(9)),
    ),
];

#[test]
fn changed_lines(rt: HostRuntime) -> Result<(), Fail> {
    for (number, line, fault) in CASES.iter() {
        assert!(rt; fault_with(rt.alloc(), *number, line, b"\n")? == *fault);
    }
    assert!(rt; fault_of(b"") == Some(ConfigFault::Missing(Key::PresetBase)));
    assert!(rt; fault_with(rt.alloc(), 8, b"", b"\r\n")?.is_none());
    Ok(())
}

/// What is read of the plain lines.
fn plain_config(alloc: Global) -> Result<Config, Fail> {
    let bytes = with_line(alloc, 8, b"", b"\n")?;
    Ok(Config::read(&bytes)?)
}

#[test]
fn values(rt: HostRuntime) -> Result<(), Fail> {
    let config = plain_config(rt.alloc())?;
    let found = [
        config.preset().slots_per_epoch,
        config.seconds_per_slot(),
        config.min_validator_withdrawability_delay(),
        config.shard_committee_period(),
        config.ejection_balance(),
        config.min_per_epoch_churn_limit(),
        config.churn_limit_quotient(),
        config.proposer_score_boost(),
    ];
    assert!(rt; found == [8, 6, 256, 64, 16_000_000_000, 4, 32, 40]);
    Ok(())
}

/// Whether a fault has this text.
fn has_text(alloc: Global, fault: ConfigFault, text: &str) -> bool {
    match format!(in alloc; "{fault}") {
        Ok(said) => said.as_str() == text,
        Err(_refused) => false,
    }
}

#[test]
fn texts(rt: HostRuntime) {
    let range = "SECONDS_PER_SLOT is out of range: expected 1 to 4294967295";
    assert!(rt;
        has_text(
            rt.alloc(),
            ConfigFault::OutOfRange(Key::SecondsPerSlot),
            range
        )
    );
    let preset = "line 1: expected the name of a preset, mainnet or minimal";
    assert!(rt; has_text(rt.alloc(), ConfigFault::BadPreset(1), preset));
}
