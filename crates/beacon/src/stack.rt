//! The stack of a run. Where it can't grow, the operating system ends the program by a signal and without a word; so all of it is taken
//! once at the start, before a file is read or anything written.

/// The size of a page, in bytes.
const PAGE: usize = 4_096;

/// How many pages of the stack a run of one history needs at most, with room to spare: no call goes deeper for a longer record or a
/// larger state.
const PAGES: u8 = 48;

/// How many a run of two histories, or of chains that are made, needs at most.
const PAGES_OF_TWO: u8 = 72;

/// How many pages the command of these words needs at most. Words that are no command need no more than one history does.
pub fn pages_for(words: &[String]) -> u8 {
    match words {
        [command, ..] => match command.as_str() {
            "forensic" => PAGES_OF_TWO,
            "slasher" => PAGES_OF_TWO,
            "drill" => PAGES_OF_TWO,
            "nodes" => PAGES_OF_TWO,
            _ => PAGES,
        },
        [] => PAGES,
    }
}

/// Takes so many pages of the stack, and answers how many of them read as they were written, which is no more than these. The place within
/// a page, and the call within itself, keep the compiler from leaving a page out.
pub fn pages_taken(pages: u8, place: usize) -> u8 {
    if pages == 0 {
        return 0;
    }
    let mut page = [0u8; PAGE];
    page[place % PAGE] = 1;
    let below = pages_taken(pages - 1, place);
    below.saturating_add(page[place / 2 % PAGE])
}
