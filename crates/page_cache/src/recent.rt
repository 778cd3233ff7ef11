//! The pages that were read lately.
ghost use Rattle.std.specs.Prelude.{◌≡◌, nat_eq, Some, true, false, is_some, OnOk, OnErr, IfErr};
ghost use Rattle.std.specs.Map.{lookup, remove_entry};
ghost use Rattle.lru.specs.LruCache.{lru_cache, promoted, put_entries};

use lru::LruCache;
use page_laws::PAGE_SIZE;
use spb_edge::Memory;

/// Fills `into` with page `n` if it is cached, and makes it the most recent. Its number is hashed once.
pub(crate) fn give_cached(
    cache: &mut LruCache<u32, [u8; PAGE_SIZE]>,
    n: u32,
    into: &mut [u8; PAGE_SIZE],
) -> bool
    ensures found { result ≡ is_some (lookup (nat_eq n) cache.old.entries) }
    ensures data { result ≡ true → lookup (nat_eq n) cache.old.entries ≡ Some into.new }
    ensures first { cache.new ≡ lru_cache (promoted (nat_eq n) cache.old.entries) cache.old.cap }
{
    match cache.get(&n) {
        Some(page) => {
            *into = *page;
            true
        }
        None => false,
    }
}

/// Puts page `n` in front of the others. The last one goes if there are as many as may be.
pub(crate) fn keep_cached(
    cache: &mut LruCache<u32, [u8; PAGE_SIZE]>,
    n: u32,
    page: &[u8; PAGE_SIZE],
) -> Result<(), Memory>
    ensures first { OnOk result (cache.new ≡ lru_cache (put_entries nat_eq cache.old n page.now) cache.old.cap) }
    ensures err { OnErr result (cache.new ≡ cache.old) }
{
    match cache.put(n, *page) {
        Ok(_) => Ok(()),
        Err(_) => Err(Memory),
    }
}

/// Takes page `n` out, if it is cached.
pub(crate) fn drop_cached(cache: &mut LruCache<u32, [u8; PAGE_SIZE]>, n: u32)
    ensures { cache.new ≡ lru_cache (remove_entry (nat_eq n) cache.old.entries) cache.old.cap }
{
    cache.pop(&n);
}
