//! A page that is put, and leaves the cache.
ghost use Rattle.std.specs.Prelude.{◌≡◌, ◌==◌, ◌||◌, nat_eq, ℕ, true, IsTrue};
ghost use Rattle.std.specs.Map.{keys_of};
ghost use Rattle.page_laws.specs.Pages.{is_among, AreFree, HasRoom, JoinsAtMost};
ghost use Rattle.page_store.specs.PageStore.{in_pool, has, page_at, IsCalm};
ghost use Rattle.page_cache.specs.Misses.{after_put};
ghost use Rattle.page_cache.specs.Cached.{recent_of, IsCache};

use crate::recent::drop_cached;
use lru::LruCache;
use page_laws::{PAGE_SIZE, Pages};
use page_store::PageStore;
use spb_edge::Disk;

/// Puts page `n` in the store's open change, and takes it out of the cache.
pub(crate) fn put_page<D: Disk>(
    store: &mut PageStore<'_, D>,
    cache: &mut LruCache<u32, [u8; PAGE_SIZE]>,
    n: u32,
    page: &[u8; PAGE_SIZE],
)
    requires cache { IsCache D.is_known D.image store.old cache.old }
    requires open { store.old.is_open ≡ true }
    requires there { IsTrue (has store.old n) }
    requires room { HasRoom n (keys_of store.old.staged) }
    ensures cache { IsCache D.is_known D.image store.new cache.new }
    ensures here { page_at D.image store.new n ≡ page.now }
    ensures others { (m : ℕ) → (m ≡ n → ⊥) → page_at D.image store.new m ≡ page_at D.image store.old m }
    ensures put { JoinsAtMost n (keys_of store.old.staged) (keys_of store.new.staged) }
    ensures list { recent_of store.new (keys_of cache.new.entries) ≡ after_put n (recent_of store.old (keys_of cache.old.entries)) }
    ensures changed { store.new ≡ record store.old { staged = store.new.staged } }
    ensures cap { cache.new.cap ≡ cache.old.cap }
    ensures free { AreFree (in_pool store.new) store.new.free }
    ensures calm { IsCalm D.is_known D.reads D.quiet store.old store.new }
{
    drop_cached(cache, n);
    store.put(n, page);
}
