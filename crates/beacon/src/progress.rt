//! The progress of a run, on a terminal beside a file of lines.
//!
//! The shelf and the writer of a run are wrapped, and count what passes: the bytes of the record, and the lines, one an
//! event. The shelf shows each file when it is opened. The sink is wrapped too, and asks for the slot of the head when it is
//! time to show. No answer depends on it: contracts see each as what it wraps.

ghost use Rattle.std.specs.Prelude.{◌≡◌, ◌<◌, ◌^◌, [], ◌∷◌, length};
ghost use Rattle.bc_outside.specs.Calls.{FailsOnlyBy, Opens, Reads, ShelfKeeps, SinkKeeps, Writes};

use crate::waiting::Waiting;
use bc_outside::{Shelf, Sink, Trouble};
use std::cell::Cell;
use std::io;
use std::io::{Eprint, IsTerminal, Print, Write};
use std::time::{Clock, Duration};

/// How much time passes between one show and the next, in milliseconds.
const PAUSE: u64 = 200;

/// Whether a run shows its progress.
#[derive(Clone, Copy)]
pub enum Progress {
    /// On standard error.
    Shown,
    /// Nowhere.
    Hidden,
}

impl Progress {
    /// Progress is shown where the lines don't go to a terminal, and standard error does.
    pub fn beside<O: IsTerminal, E: IsTerminal>(out: &O, err: &E) -> Progress {
        if err.is_terminal() && !out.is_terminal() {
            Progress::Shown
        } else {
            Progress::Hidden
        }
    }
}

/// What a run did so far, and when it was shown last.
#[derive(Drop)]
pub struct Watch<'a, R: Eprint + Clock> {
    rt: &'a R,
    progress: Progress,
    // The file of the record, by the order of the command's words.
    record: u32,
    events: Cell<u64>,
    bytes: Cell<u64>,
    // When it was shown last, or the run's beginning.
    shown: Cell<Duration>,
    is_dirty: Cell<bool>,
}

impl<'a, R: Eprint + Clock> Watch<'a, R> {
    /// A run that did nothing yet, whose record is the file of this number.
    pub fn new(rt: &'a R, progress: Progress, record: u32) -> Self {
        Watch {
            rt,
            progress,
            record,
            events: Cell::new(0),
            bytes: Cell::new(0),
            shown: Cell::new(rt.monotonic().unwrap_or(Duration::ZERO)),
            is_dirty: Cell::new(false),
        }
    }

    /// Shows the progress in place of what was shown before, with the slot of the head. Made events are read of no record.
    /// A terminal that is narrower than the row cuts it (`?7l`), and leaves none behind.
    fn show(&self, slot: u64) {
        let events = self.events.get();
        let bytes = self.bytes.get();
        let _ = if bytes == 0 {
            eprint!(self.rt; "\r\x1b[?7lhead at slot {slot}\x1b[K\x1b[?7h")
        } else {
            eprint!(self.rt;
                "\r\x1b[?7l{events} events, {bytes} bytes of the record, head at slot {slot}\x1b[K\x1b[?7h"
            )
        };
        self.is_dirty.set(true);
    }

    /// Shows that a file is read, in place of what was shown before: of a large genesis it takes long until the first event.
    fn show_file(&self, name: &str) {
        match self.progress {
            Progress::Shown => {
                let _ = eprint!(self.rt; "\r\x1b[?7lreading {name:?}\x1b[K\x1b[?7h");
                self.is_dirty.set(true);
            }
            Progress::Hidden => {}
        }
    }

    /// Whether what was shown is out of date by now, and counts as shown from now on.
    fn is_late(&self, now: Duration) -> bool {
        let is_late = now.saturating_sub(self.shown.get()) >= Duration::from_millis(PAUSE);
        if is_late {
            self.shown.set(now);
        }
        is_late
    }

    /// Whether the progress is shown and was not shown for long enough. It counts as shown from now on.
    fn is_due(&self) -> bool {
        match self.progress {
            Progress::Shown => self.is_late(self.rt.monotonic().unwrap_or(Duration::ZERO)),
            Progress::Hidden => false,
        }
    }

    /// Counts bytes that were read of a file, where it is the record.
    fn count_bytes(&self, file: u32, count: usize) {
        if file == self.record {
            self.bytes
                .set(self.bytes.get().saturating_add(count as u64));
        }
    }

    /// Counts a line where bytes that were taken end it: no write goes on behind one.
    fn count_line(&self, bytes: &[u8]) {
        if let [.., b'\n'] = bytes {
            self.events.set(self.events.get().saturating_add(1));
        }
    }

    /// How many lines were taken to their ends.
    pub fn events(&self) -> u64 {
        self.events.get()
    }

    /// Clears what was shown.
    pub fn clear(&self) {
        if self.is_dirty.get() {
            let _ = eprint!(self.rt; "\r\x1b[K");
        }
    }
}

/// A shelf that shows which file is opened, and counts what is read of the record. The lines that wait are written before.
#[derive(Drop)]
pub struct WatchedShelf<'a, 'b, F: Shelf + Drop, R: Print + Eprint + Clock> {
    shelf: F,
    watch: &'a Watch<'b, R>,
    waiting: &'a Waiting<'b, R>,
}

impl<'a, 'b, F: Shelf + Drop, R: Print + Eprint + Clock> WatchedShelf<'a, 'b, F, R> {
    /// The same shelf, watched.
    pub fn new(shelf: F, watch: &'a Watch<'b, R>, waiting: &'a Waiting<'b, R>) -> Self
        ensures { result.shelf ≡ shelf }
    {
        WatchedShelf {
            shelf,
            watch,
            waiting,
        }
    }

    /// The shelf itself.
    pub fn shelf(&self) -> &F
        ensures { result.now ≡ self.now.shelf }
    {
        &self.shelf
    }
}

impl<'a, 'b, F: Shelf + Drop, R: Print + Eprint + Clock> Shelf for WatchedShelf<'a, 'b, F, R> {
    ghost told = { λ watched. F.told watched.shelf };

    fn open(&mut self, name: &str) -> Result<u32, Trouble>
        requires { length (F.told self.old.shelf).files < 2 ^ 32 }
        ensures opens { Opens name.now result (F.told self.old.shelf) (F.told self.new.shelf) }
        ensures causes { FailsOnlyBy result (F.told self.old.shelf).faults (F.told self.new.shelf).faults }
        ensures keeps { ShelfKeeps (name.now ∷ []) (F.told self.old.shelf) (F.told self.new.shelf) }
    {
        self.watch.show_file(name);
        self.shelf.open(name)
    }

    fn read(&mut self, file: u32, into: &mut [u8]) -> Result<usize, Trouble>
        requires { file < length (F.told self.old.shelf).files }
        ensures reads { Reads file into.old into.new result (F.told self.old.shelf) (F.told self.new.shelf) }
        ensures causes { FailsOnlyBy result (F.told self.old.shelf).faults (F.told self.new.shelf).faults }
        ensures keeps { ShelfKeeps [] (F.told self.old.shelf) (F.told self.new.shelf) }
    {
        // what can't be written now waits on, and the next line or the end of the run meets the fault
        let _ = self.waiting.flush();
        let count = self.shelf.read(file, into)?;
        self.watch.count_bytes(file, count);
        Ok(count)
    }
}

/// What waits for standard output, with its lines counted.
#[derive(Drop)]
pub struct WatchedOut<'a, 'b, R: Print + Eprint + Clock> {
    waiting: &'a Waiting<'b, R>,
    watch: &'a Watch<'b, R>,
}

impl<'a, 'b, R: Print + Eprint + Clock> WatchedOut<'a, 'b, R> {
    /// What takes the lines, watched.
    pub fn new(waiting: &'a Waiting<'b, R>, watch: &'a Watch<'b, R>) -> Self {
        WatchedOut { waiting, watch }
    }
}

impl<R: Print + Eprint + Clock> Write for WatchedOut<'_, '_, R> {
    fn write(&mut self, buf: &[u8]) -> io::Result<usize> {
        let n = self.waiting.take(buf)?;
        self.watch.count_line(&buf[..n]);
        Ok(n)
    }

    fn flush(&mut self) -> io::Result<()> {
        self.waiting.flush()
    }
}

/// A sink that counts the lines of a run, and hears where its head is.
#[derive(Drop)]
pub struct WatchedSink<'a, 'b, S: Sink + Drop, R: Eprint + Clock> {
    sink: S,
    watch: &'a Watch<'b, R>,
}

impl<'a, 'b, S: Sink + Drop, R: Eprint + Clock> WatchedSink<'a, 'b, S, R> {
    /// The same sink, watched.
    pub fn new(sink: S, watch: &'a Watch<'b, R>) -> Self
        ensures { result.sink ≡ sink }
    {
        WatchedSink { sink, watch }
    }

    /// The sink itself.
    pub fn sink(&self) -> &S
        ensures { result.now ≡ self.now.sink }
    {
        &self.sink
    }
}

impl<'a, 'b, S: Sink + Drop, R: Eprint + Clock> Sink for WatchedSink<'a, 'b, S, R> {
    ghost told = { λ watched. S.told watched.sink };

    fn write(&mut self, piece: &[u8]) -> Result<usize, Trouble>
        requires { 0 < length piece.now }
        ensures writes { Writes piece.now result (S.told self.old.sink) (S.told self.new.sink) }
        ensures causes { FailsOnlyBy result (S.told self.old.sink).faults (S.told self.new.sink).faults }
        ensures keeps { SinkKeeps (S.told self.old.sink) (S.told self.new.sink) }
    {
        self.sink.write(piece)
    }

    fn asks(&self) -> bool {
        self.watch.is_due()
    }

    fn hear(&self, slot: u64) {
        self.watch.show(slot);
    }
}
