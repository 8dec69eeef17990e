//! Why a block isn't added to a book.

use bc_words::NoMemory;
use thiserror::Error;

/// Why a block isn't added. The book is as before.
#[derive(Clone, Copy, Debug, PartialEq, Eq, Error)]
pub enum BookStop {
    /// Its root belongs to another block: the history that has this one, and its place there in order of first acceptance, that of
    /// the genesis block being 0.
    #[error("clash: the root belongs to block {1} of history {0}")]
    Clash(u8, u32),
    /// Memory was refused.
    #[error("out of memory")]
    NoMemory,
}

impl From<NoMemory> for BookStop {
    ghost use Rattle.forensics.specs.declared.book_stop.BookStop.TheVariants as stops;
    ghost use Rattle.std.specs.Prelude.{◌≡◌};

    ghost from_gives = { λ _ e. e ≡ stops.NoMemory };

    fn from(_refused: NoMemory) -> BookStop {
        BookStop::NoMemory
    }
}
