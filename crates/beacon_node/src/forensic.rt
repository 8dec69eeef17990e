//! The commands `forensic` and `slasher`: configuration, genesis and two records are read in this order, the second record only once the
//! first was followed to its end, and then what the command tells of them is written: the offences and the verdict, or the record of the
//! attester slashings that they give.

ghost use Rattle.std.specs.Prelude.{◌≡◌, ◌≢◌, ◌≤◌, ◌<◌, ◌+◌, ◌^◌, ◌++◌, ◌∷◌, [], length, Some, Ok, flat_map};
ghost use Rattle.spec_replay.specs.Forensic.{judge, records_run, verdict_line, with_first, with_genesis, with_second};
ghost use Rattle.spec_replay.specs.OffenceLines.{offence_line};
ghost use Rattle.forensics.specs.Books.{history_of};
ghost use Rattle.safety_law.specs.Follows.{Follows};
ghost use Rattle.one_chain.specs.Answers.{OutsideKeeps};
ghost use Rattle.beacon_node.specs.Findings.{WritesFindings};
ghost use Rattle.one_chain.specs.inside.AtEnd.{Concludes};
ghost use Rattle.beacon_node.specs.inside.ByFiles.{EndsOver};
ghost use Rattle.beacon_node.specs.inside.Histories.{AreOpened, IsGenesis, run_of_records};
ghost use Rattle.beacon_node.specs.inside.Reports.{WritesReport};
ghost use Rattle.one_chain.specs.inside.Texts.{WritesText};

use crate::follow::{Side, follow_record};
use crate::histories::{Findings, Histories, find, open_histories};
use crate::offence_lines::{offence_line, verdict_line};
use crate::slashings::tell_slashings;
use bc_outside::{Shelf, Sink, Trouble, write_all};
use bc_preset::{Config, MAX_CONFIG_LEN};
use beacon_state::State;
use command_arguments::ForensicFiles;
use forensics::VoteBook;
use fork_store::Store;
use one_chain::{MAX_GENESIS_LEN, Status, no_genesis, read_genesis, read_named, unread, written};
use spec_forensics::{Offence, Verdict};
use spec_replay::Report;
use std::alloc::Global;

/// Writes the line of an offence.
fn write_offence<O: Sink>(alloc: Global, offence: &Offence, out: &mut O) -> Result<(), Trouble>
    ensures { WritesText (offence_line offence.now) result (O.told out.old) (O.told out.new) }
{
    match offence_line(alloc, offence) {
        Ok(line) => write_all(out, &line),
        Err(_refused) => Err(Trouble::NoMemory),
    }
}

/// Writes the line of each offence.
fn write_offences<O: Sink>(alloc: Global, offences: &[Offence], out: &mut O) -> Result<(), Trouble>
    ensures { WritesText (flat_map offence_line offences.now) result (O.told out.old) (O.told out.new) }
{
    for offence in offences {
        write_offence(alloc, offence, out)?;
    }
    Ok(())
}

/// Writes the line of a verdict.
fn write_verdict<O: Sink>(alloc: Global, verdict: &Verdict, out: &mut O) -> Result<(), Trouble>
    ensures { WritesText (verdict_line verdict.now) result (O.told out.old) (O.told out.new) }
{
    match verdict_line(alloc, verdict) {
        Ok(line) => write_all(out, &line),
        Err(_refused) => Err(Trouble::NoMemory),
    }
}

/// Writes the offences, and then the verdict.
fn write_findings<O: Sink>(alloc: Global, findings: &Findings, out: &mut O) -> Result<(), Trouble>
    ensures { WritesText (flat_map offence_line findings.now.offences.items ++ verdict_line findings.now.verdict) result (O.told out.old) (O.told out.new) }
{
    write_offences(alloc, &findings.offences, out)?;
    write_verdict(alloc, &findings.verdict, out)
}

/// Writes what the book finds of two histories, which their stores followed to their end.
fn tell_findings<O: Sink>(
    alloc: Global,
    first: &Store,
    second: &Store,
    book: &mut VoteBook,
    out: &mut O,
) -> Status
    requires first { Follows book.old.config book.old.genesis (history_of book.old 0) first.now.plain }
    requires second { Follows book.old.config book.old.genesis (history_of book.old 1) second.now.plain }
    ensures told { Concludes result (judge Report.Findings book.old.genesis (record { store = first.now.plain; history = history_of book.old 0 }) (Ok (record { store = second.now.plain; history = history_of book.old 1 })))
        (O.told out.old) (O.told out.new) }
    ensures findings { result ≡ Status.Done → WritesFindings (O.told out.old).taken (O.told out.new).taken }
{
    match find(alloc, first, second, book) {
        Ok(findings) => written(write_findings(alloc, &findings, out)),
        Err(_) => Status::NoMemory,
    }
}

/// Writes what the command tells of two histories, which their stores followed to their end.
fn tell<O: Sink>(
    alloc: Global,
    report: Report,
    first: &Store,
    second: &Store,
    book: &mut VoteBook,
    out: &mut O,
) -> Status
    requires first { Follows book.old.config book.old.genesis (history_of book.old 0) first.now.plain }
    requires second { Follows book.old.config book.old.genesis (history_of book.old 1) second.now.plain }
    ensures told { Concludes result (judge report book.old.genesis (record { store = first.now.plain; history = history_of book.old 0 }) (Ok (record { store = second.now.plain; history = history_of book.old 1 })))
        (O.told out.old) (O.told out.new) }
    ensures reports { result ≡ Status.Done → WritesReport report (O.told out.old).taken (O.told out.new).taken }
{
    match report {
        Report::Findings => tell_findings(alloc, first, second, book, out),
        Report::Slashings => tell_slashings(alloc, &*book, out),
    }
}

/// Follows the second record behind the first one, whose store is kept for its blocks, and writes what the command tells of both.
fn tell_second<F: Shelf, O: Sink>(
    alloc: Global,
    report: Report,
    genesis: &State,
    first: &Store,
    name: &str,
    second: &mut Store,
    book: &mut VoteBook,
    shelf: &mut F,
    out: &mut O,
) -> Status
    requires opened { length (F.told shelf.old).files < 2 ^ 32 }
    requires few { (length first.now.plain.blocks < 2 ^ 32) × (length second.old.plain.blocks ≤ 1) }
    requires genesis { book.old.genesis ≡ genesis.now }
    requires new { history_of book.old 1 ≡ [] }
    requires first { Follows book.old.config book.old.genesis (history_of book.old 0) first.now.plain }
    requires second { Follows book.old.config book.old.genesis [] second.old.plain }
    ensures answers { EndsOver (λ contents. with_second report genesis.now second.old.plain (record { store = first.now.plain; history = history_of book.old 0 }) (contents name.now))
        (name.now ∷ []) result (F.told shelf.old) (F.told shelf.new) (O.told out.old).taken (O.told out.new).taken }
    ensures command { result ≢ Status.Words }
    ensures outside { OutsideKeeps (name.now ∷ []) (Some result) (F.told shelf.old) (F.told shelf.new) (O.told out.old) (O.told out.new) }
    ensures reports { result ≡ Status.Done → WritesReport report (O.told out.old).taken (O.told out.new).taken }
{
    let side = Side::Second(first);
    match follow_record(alloc, side, genesis, name, second, book, shelf) {
        Ok(()) => tell(alloc, report, first, second, book, out),
        Err(status) => status,
    }
}

/// Follows the first record and then the second, each on its store at genesis, and writes what the command tells of both.
fn tell_records<F: Shelf, O: Sink>(
    alloc: Global,
    report: Report,
    histories: &mut Histories,
    files: &ForensicFiles<'_>,
    shelf: &mut F,
    out: &mut O,
) -> Status
    requires few { length (F.told shelf.old).files + 1 < 2 ^ 32 }
    requires opened { AreOpened histories.old.book.config histories.old.genesis histories.old }
    ensures answers { EndsOver (λ contents. with_first report histories.old.genesis histories.old.first.plain (contents files.now.first.now) (contents files.now.second.now))
        (files.now.first.now ∷ files.now.second.now ∷ []) result (F.told shelf.old) (F.told shelf.new) (O.told out.old).taken (O.told out.new).taken }
    ensures command { result ≢ Status.Words }
    ensures outside { OutsideKeeps (files.now.first.now ∷ files.now.second.now ∷ []) (Some result)
        (F.told shelf.old) (F.told shelf.new) (O.told out.old) (O.told out.new) }
    ensures reports { result ≡ Status.Done → WritesReport report (O.told out.old).taken (O.told out.new).taken }
{
    let Histories {
        genesis,
        first,
        second,
        book,
    } = histories;
    match follow_record(alloc, Side::First, genesis, files.first, first, book, shelf) {
        Ok(()) => tell_second(
            alloc,
            report,
            genesis,
            first,
            files.second,
            second,
            book,
            shelf,
            out,
        ),
        Err(status) => status,
    }
}

/// Opens two stores at genesis, and follows the records.
fn tell_from<F: Shelf, O: Sink>(
    alloc: Global,
    report: Report,
    config: &Config,
    genesis: State,
    files: &ForensicFiles<'_>,
    shelf: &mut F,
    out: &mut O,
) -> Status
    requires few { length (F.told shelf.old).files + 1 < 2 ^ 32 }
    requires genesis { IsGenesis config.now genesis }
    ensures answers { EndsOver (λ contents. run_of_records report config.now genesis (contents files.now.first.now) (contents files.now.second.now))
        (files.now.first.now ∷ files.now.second.now ∷ []) result (F.told shelf.old) (F.told shelf.new) (O.told out.old).taken (O.told out.new).taken }
    ensures command { result ≢ Status.Words }
    ensures outside { OutsideKeeps (files.now.first.now ∷ files.now.second.now ∷ []) (Some result)
        (F.told shelf.old) (F.told shelf.new) (O.told out.old) (O.told out.new) }
    ensures reports { result ≡ Status.Done → WritesReport report (O.told out.old).taken (O.told out.new).taken }
{
    match open_histories(alloc, config, genesis) {
        Ok(mut histories) => tell_records(alloc, report, &mut histories, files, shelf, out),
        Err(status) => status,
    }
}

/// Reads the genesis state and then the records, under this configuration.
fn tell_genesis<F: Shelf, O: Sink>(
    alloc: Global,
    report: Report,
    config: &Config,
    files: &ForensicFiles<'_>,
    shelf: &mut F,
    out: &mut O,
) -> Status
    requires { length (F.told shelf.old).files + 2 < 2 ^ 32 }
    ensures answers { EndsOver (λ contents. with_genesis report config.now (contents files.now.genesis.now) (contents files.now.first.now) (contents files.now.second.now))
        (files.now.genesis.now ∷ files.now.first.now ∷ files.now.second.now ∷ []) result (F.told shelf.old) (F.told shelf.new) (O.told out.old).taken (O.told out.new).taken }
    ensures command { result ≢ Status.Words }
    ensures outside { OutsideKeeps (files.now.genesis.now ∷ files.now.first.now ∷ files.now.second.now ∷ []) (Some result)
        (F.told shelf.old) (F.told shelf.new) (O.told out.old) (O.told out.new) }
    ensures reports { result ≡ Status.Done → WritesReport report (O.told out.old).taken (O.told out.new).taken }
{
    let bytes = match read_named(alloc, shelf, files.genesis, MAX_GENESIS_LEN + 1) {
        Ok(bytes) => bytes,
        Err(trouble) => return unread(trouble),
    };
    match read_genesis(alloc, config.preset(), &bytes) {
        Ok(state) => {
            // A file of any size is in memory for no longer than it takes to read the state.
            drop(bytes);
            tell_from(alloc, report, config, state, files, shelf, out)
        }
        Err(stop) => no_genesis(stop),
    }
}

/// Reads the configuration, the genesis state and both records, and writes what the command tells of them.
#[inline(never)]
pub fn forensic<F: Shelf, O: Sink>(
    alloc: Global,
    report: Report,
    files: &ForensicFiles<'_>,
    shelf: &mut F,
    out: &mut O,
) -> Status
    requires { length (F.told shelf.old).files + 3 < 2 ^ 32 }
    ensures answers { EndsOver (λ contents. records_run report (contents files.now.config.now) (contents files.now.genesis.now) (contents files.now.first.now) (contents files.now.second.now))
        (files.now.config.now ∷ files.now.genesis.now ∷ files.now.first.now ∷ files.now.second.now ∷ [])
        result (F.told shelf.old) (F.told shelf.new) (O.told out.old).taken (O.told out.new).taken }
    ensures command { result ≢ Status.Words }
    ensures outside { OutsideKeeps (files.now.config.now ∷ files.now.genesis.now ∷ files.now.first.now ∷ files.now.second.now ∷ []) (Some result)
        (F.told shelf.old) (F.told shelf.new) (O.told out.old) (O.told out.new) }
    ensures reports { result ≡ Status.Done → WritesReport report (O.told out.old).taken (O.told out.new).taken }
{
    let bytes = match read_named(alloc, shelf, files.config, MAX_CONFIG_LEN + 1) {
        Ok(bytes) => bytes,
        Err(trouble) => return unread(trouble),
    };
    match Config::read(&bytes) {
        Ok(config) => tell_genesis(alloc, report, &config, files, shelf, out),
        Err(fault) => Status::Config(fault),
    }
}
