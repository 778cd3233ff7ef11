//! A page, from the cache or from the store.
ghost use Rattle.std.specs.Prelude.{◌≡◌, ◌==◌, nat_eq, false, IsTrue, OnOk, Ok};
ghost use Rattle.std.specs.Map.{keys_of};
ghost use Rattle.page_laws.specs.Errors.{CountsFault};
ghost use Rattle.page_laws.specs.Pages.{risen, count_after, is_among, AreFree};
ghost use Rattle.page_store.specs.PageStore.{in_pool, has, page_at, IsCalm, HasMemory};
ghost use Rattle.page_cache.specs.Misses.{is_miss, misses_of, Gets};
ghost use Rattle.page_cache.specs.Cached.{recent_of, IsCache};

use crate::recent::{give_cached, keep_cached};
use lru::LruCache;
use page_laws::{PAGE_SIZE, PageError, Pages};
use page_store::PageStore;
use spb_edge::Disk;

/// Fills `into` with page `n`: from the cache if it is there, else from the store, and then it is cached if it wasn't put
/// in the open change.
pub(crate) fn get_page<D: Disk>(
    store: &mut PageStore<'_, D>,
    cache: &mut LruCache<u32, [u8; PAGE_SIZE]>,
    n: u32,
    into: &mut [u8; PAGE_SIZE],
) -> Result<(), PageError>
    requires cache { IsCache D.is_known D.image store.old cache.old }
    requires there { IsTrue (has store.old n) }
    ensures cache { IsCache D.is_known D.image store.new cache.new }
    ensures data { IsTrue (D.is_known store.old.disk) → OnOk result (into.new ≡ page_at D.image store.old n) }
    ensures list { Gets cache.old.cap n result (recent_of store.old (keys_of cache.old.entries)) (recent_of store.new (keys_of cache.new.entries)) }
    ensures reads { IsTrue (D.is_known store.old.disk)
        → D.reads store.new.disk ≡ count_after (D.reads store.old.disk) (misses_of n (recent_of store.old (keys_of cache.old.entries))) }
    ensures hit { IsTrue (is_among n (keys_of cache.old.entries)) → (store.new.disk ≡ store.old.disk) × (result ≡ Ok tt) }
    ensures memory { is_miss n (recent_of store.old (keys_of cache.old.entries)) ≡ false → HasMemory result }
    ensures changed { store.new ≡ record store.old { disk = store.new.disk; fetches = risen store.old.fetches 1 } }
    ensures cap { cache.new.cap ≡ cache.old.cap }
    ensures told { D.is_known store.new.disk ≡ D.is_known store.old.disk }
    ensures pages { IsTrue (D.is_known store.old.disk) → page_at D.image store.new ≡ page_at D.image store.old }
    ensures free { AreFree (in_pool store.new) store.new.free }
    ensures fault { CountsFault result (D.faults store.old.disk) (D.faults store.new.disk) }
    ensures calm { IsCalm D.is_known D.reads D.quiet store.old store.new }
{
    if give_cached(cache, n, into) {
        store.count_fetch();
        return Ok(());
    }
    let was_put = store.is_put(n);
    store.get(n, into)?;
    if was_put {
        return Ok(());
    }
    keep_cached(cache, n, into)?;
    Ok(())
}
