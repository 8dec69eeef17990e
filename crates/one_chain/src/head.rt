//! The head of the store, for lines and for whoever follows a run.

ghost use Rattle.std.specs.Prelude.{◌≡◌, ◌<◌};
ghost use Rattle.spec_fork_choice.specs.GetHead.{get_head};

use bc_words::Steps;
use fork_store::Store;
use hash_tree::Root;
use std::marker::Brand;
use std::sync::ledger::{Blank, Ledger};

/// The head, with a counter of its own.
fn counted<L: Ledger>(store: &mut Store, blank: Blank) -> Root
    requires name { blank.name ≡ L.name }
    requires parts { blank.parts ≡ L.parts }
    requires some { 0 < blank.parts }
    ensures root { result ≡ get_head store.old.plain }
    ensures same { store.new.plain ≡ store.old.plain }
{
    let mut steps = Steps::<L>::new(blank);
    store.head(&mut steps)
}

/// The root of the head.
pub fn head_of(store: &mut Store) -> Root
    ensures root { result ≡ get_head store.old.plain }
    ensures same { store.new.plain ≡ store.old.plain }
{
    counted::<Brand>(store, Blank::new(1))
}
