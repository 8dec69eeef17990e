//! Processor times of one run, and the lines that tell them: how many times another one a time is.

use anyhow::{Result, bail};
use std::fmt;
use std::time::{CpuClock, Duration};

/// A processor time, where the clock told it.
#[derive(Clone, Copy)]
pub struct Time(Option<Duration>);

/// The processor time now.
pub fn now(rt: &impl CpuClock) -> Time {
    Time(rt.process_cpu_time().ok())
}

/// The processor time since then.
pub fn time_since(rt: &impl CpuClock, begin: Time) -> Time {
    match (begin.0, now(rt).0) {
        (Some(begin), Some(end)) => Time(Some(end.saturating_sub(begin))),
        _ => Time(None),
    }
}

impl Time {
    /// No time.
    pub fn none() -> Time {
        Time(Some(Duration::ZERO))
    }

    /// Both times.
    pub fn plus(self, other: Time) -> Time {
        match (self.0, other.0) {
            (Some(first), Some(second)) => Time(Some(first.saturating_add(second))),
            _ => Time(None),
        }
    }

    /// So many times the time.
    pub fn times(self, count: u32) -> Time {
        match self.0 {
            Some(time) => Time(Some(time.saturating_mul(count))),
            None => self,
        }
    }

    /// The time in microseconds. An error where the clock didn't tell it.
    pub fn micros(self) -> Result<u128> {
        match self.0 {
            Some(time) => Ok(time.as_micros()),
            None => bail!("the clock told no time"),
        }
    }
}

/// What was measured, and what it is measured by: the hashes that it can't do without, or another part of the run. Both are
/// times in microseconds.
#[derive(Clone, Copy)]
struct Ratio {
    /// The time of the whole.
    whole: u128,
    /// The time of what it is measured by, and at least 1.
    measure: u128,
}

/// The ratio of two times.
fn ratio_of(whole: Time, measure: Time) -> Result<Ratio> {
    let whole = whole.micros()?;
    let measure = measure.micros()?.max(1);
    Ok(Ratio { whole, measure })
}

impl fmt::Display for Ratio {
    fn fmt<W: fmt::Write>(&self, f: &mut fmt::Formatter<W>) -> fmt::Result {
        let (whole, measure) = (self.whole, self.measure);
        let hundredths = whole.saturating_mul(100) / measure.max(1);
        let (ones, rest) = (hundredths / 100, hundredths % 100);
        write!(f, "{whole} us against {measure} us, ratio {ones}.{rest:02}")
    }
}

/// Prints a line.
pub fn tell_text(rt: &impl Print, text: &str) -> Result<()> {
    println!(rt; "{text}")?;
    Ok(())
}

/// Prints a number and what it is.
pub fn tell_number(rt: &impl Print, what: &str, number: u64) -> Result<()> {
    println!(rt; "{what}: {number}")?;
    Ok(())
}

/// Prints numbers, and what each is.
pub fn tell_numbers(rt: &impl Print, lines: &[(&str, u64)]) -> Result<()> {
    for (what, number) in lines {
        tell_number(rt, what, *number)?;
    }
    Ok(())
}

/// Prints a time and what took it.
pub fn tell_time(rt: &impl Print, what: &str, time: Time) -> Result<()> {
    let micros = time.micros()?;
    println!(rt; "{what}: {micros} us")?;
    Ok(())
}

/// Prints times, and what took each.
pub fn tell_times(rt: &impl Print, lines: &[(&str, Time)]) -> Result<()> {
    for (what, time) in lines {
        tell_time(rt, what, *time)?;
    }
    Ok(())
}

/// Prints what was measured, and its time against that of what it is measured by.
pub fn tell_ratio(rt: &impl Print, what: &str, whole: Time, measure: Time) -> Result<()> {
    let ratio = ratio_of(whole, measure)?;
    println!(rt; "{what}: {ratio}")?;
    Ok(())
}

/// The same, with what the results of the work were joined to, so that none of it is left out.
pub fn tell_joined(
    rt: &impl Print,
    what: &str,
    whole: Time,
    measure: Time,
    joined: u64,
) -> Result<()> {
    let ratio = ratio_of(whole, measure)?;
    println!(rt; "{what}: {ratio} (joined {joined})")?;
    Ok(())
}
