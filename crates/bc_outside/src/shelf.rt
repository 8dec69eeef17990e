//! Files that are opened by name and read from front to back.

ghost use Rattle.std.specs.Prelude.{◌≡◌, ◌<◌, ◌^◌, [], ◌∷◌, length};
ghost use Rattle.bc_outside.specs.Told.{ShelfTold};
ghost use Rattle.bc_outside.specs.Calls.{FailsOnlyBy, Opens, Reads, ShelfKeeps, meets_end};

use crate::Trouble;

// Whether a read into this piece that gave n bytes met the file's end.
pub(crate) fn meets_end(piece: &[u8], n: usize) -> bool
    ensures { result ≡ meets_end piece.now n }
{
    let is_nothing = n == 0;
    is_nothing & !piece.is_empty()
}

/// Files by name. Each opened file has a place of its own, also where one name is opened twice.
pub trait Shelf {
    /// What was opened, asked for and handed out, and how many faults were counted.
    ghost told: { Self → ShelfTold };

    /// Opens the file that the name stands for, and answers its number.
    fn open(&mut self, name: &str) -> Result<u32, Trouble>
        requires { length (told self.old).files < 2 ^ 32 }
        ensures opens { Opens name.now result (told self.old) (told self.new) }
        ensures causes { FailsOnlyBy result (told self.old).faults (told self.new).faults }
        ensures keeps { ShelfKeeps (name.now ∷ []) (told self.old) (told self.new) };

    /// Reads the next bytes of a file into the front of a piece, and answers how many: 0 at the file's end.
    fn read(&mut self, file: u32, into: &mut [u8]) -> Result<usize, Trouble>
        requires { file < length (told self.old).files }
        ensures reads { Reads file into.old into.new result (told self.old) (told self.new) }
        ensures causes { FailsOnlyBy result (told self.old).faults (told self.new).faults }
        ensures keeps { ShelfKeeps [] (told self.old) (told self.new) };
}
