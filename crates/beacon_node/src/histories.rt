//! Two histories on one genesis: a store for each, and the book of what both stores accept. Their events come from two records or from
//! two made chains; what the book finds goes to lines.

ghost use Rattle.std.specs.Prelude.{◌≡◌, None, IfOk, IfErr};
ghost use Rattle.spec_fork_choice.specs.OnEvent.{genesis_clash};
ghost use Rattle.safety_law.specs.Follows.{Follows};
ghost use Rattle.forensics.specs.Books.{begun, history_of};
ghost use Rattle.beacon_node.specs.inside.Histories.{AreOpened, HasFound, IsGenesis, IsOpened, OpeningEnds};

use bc_preset::Config;
use bc_words::NoMemory;
use beacon_state::State;
use forensics::VoteBook;
use fork_store::Store;
use one_chain::{Status, no_store};
use spec_forensics::{Offence, Verdict};
use std::alloc::Global;

/// Two stores at one genesis, and a book without blocks.
#[derive(Drop)]
pub struct Histories {
    /// The genesis state.
    pub genesis: State,
    /// The store that follows the first history.
    pub first: Store,
    /// The store that follows the second one.
    pub second: Store,
    /// The book.
    pub book: VoteBook,
}

/// What a book found.
#[derive(Drop)]
pub struct Findings {
    /// The offences, in order of validator.
    pub offences: Vec<Offence>,
    /// The verdict.
    pub verdict: Verdict,
}

/// A store at genesis, which is shared with it.
pub fn store_at(alloc: Global, config: &Config, genesis: &State) -> Result<Store, Status>
    requires { IsGenesis config.now genesis.now }
    ensures opened { IfOk result (λ store. IsOpened config.now genesis.now store.plain) }
    ensures over { IfErr result (λ status. OpeningEnds status (genesis_clash genesis.now)) }
{
    let shared = match genesis.share() {
        Ok(shared) => shared,
        Err(_) => return Err(Status::NoMemory),
    };
    match Store::new(alloc, config, shared) {
        Ok(store) => Ok(store),
        Err(stop) => Err(no_store(stop)),
    }
}

/// A book without blocks on the genesis, with which a store opened.
pub fn book_at(alloc: Global, config: &Config, genesis: &State) -> Result<VoteBook, Status>
    requires genesis { IsGenesis config.now genesis.now }
    requires opened { genesis_clash genesis.now ≡ None }
    ensures book { IfOk result (λ book. book ≡ begun config.now genesis.now) }
    ensures over { IfErr result (λ status. status ≡ Status.NoMemory) }
    ensures ends { IfErr result (λ status. OpeningEnds status (genesis_clash genesis.now)) }
{
    match VoteBook::new(alloc, genesis, config) {
        Ok(book) => Ok(book),
        Err(_) => Err(Status::NoMemory),
    }
}

/// Opens both stores at genesis, and the book.
pub fn open_histories(alloc: Global, config: &Config, genesis: State) -> Result<Histories, Status>
    requires { IsGenesis config.now genesis }
    ensures opened { IfOk result (λ histories. AreOpened config.now genesis histories) }
    ensures over { IfErr result (λ status. OpeningEnds status (genesis_clash genesis)) }
{
    let first = store_at(alloc, config, &genesis)?;
    let second = store_at(alloc, config, &genesis)?;
    let book = book_at(alloc, config, &genesis)?;
    Ok(Histories {
        genesis,
        first,
        second,
        book,
    })
}

/// Closes both histories with what their stores finalised, and answers what the book finds.
pub fn find(
    alloc: Global,
    first: &Store,
    second: &Store,
    book: &mut VoteBook,
) -> Result<Findings, NoMemory>
    requires first { Follows book.old.config book.old.genesis (history_of book.old 0) first.now.plain }
    requires second { Follows book.old.config book.old.genesis (history_of book.old 1) second.now.plain }
    ensures { IfOk result (λ findings. HasFound book.old.genesis (history_of book.old 0) (history_of book.old 1) first.now.plain second.now.plain findings) }
{
    book.close(0, first.finalized());
    book.close(1, second.finalized());
    Ok(Findings {
        offences: book.offences(alloc)?,
        verdict: book.judge(),
    })
}
