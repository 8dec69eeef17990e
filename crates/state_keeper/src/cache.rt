//! The states that were used last.

ghost use Rattle.std.specs.Prelude.{◌≡◌, ℕ, nat_eq, Some, IfOk, Contains};
ghost use Rattle.std.specs.Map.{lookup};
ghost use Rattle.lru.specs.LruCache.{promoted};
ghost use Rattle.state_keeper.specs.inside.Cache.{IsAmong};

use bc_words::NoMemory;
use beacon_state::State;
use lru::LruCache;

/// The state that is there, in the same nodes.
pub(crate) fn share_found(state: &State) -> Result<Option<State>, NoMemory>
    ensures { IfOk result (λ found. found ≡ Some state.now) }
{
    Ok(Some(state.share()?))
}

/// The state of a block, where the cache has it. It becomes the one that was used last.
pub(crate) fn recall(cache: &mut LruCache<u32, State>, n: u32) -> Result<Option<State>, NoMemory>
    ensures found { IfOk result (λ state. state ≡ lookup (nat_eq n) cache.old.entries) }
    ensures entries { cache.new.entries ≡ promoted (nat_eq n) cache.old.entries }
{
    match cache.get(&n) {
        Some(state) => share_found(state),
        None => Ok(None),
    }
}

/// Puts a block's state into the cache, from which the one that wasn't used for longest may go. Where memory is refused, the
/// cache is as before: it may lack any state.
pub(crate) fn remember<S: Drop>(cache: &mut LruCache<u32, S>, n: u32, state: S)
    ensures { (k : ℕ) (s : S) → Contains cache.new.entries (k, s) → IsAmong cache.old.entries n state k s }
{
    let _old = cache.put(n, state);
}
