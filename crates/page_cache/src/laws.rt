//! Laws of the misses of a most-recent list.
ghost use Rattle.std.specs.Prelude.{◌≡◌, ℕ, ◌+◌, ◌≤◌, List, ◌++◌, map, take};
ghost use Rattle.page_cache.specs.Misses.{MostRecent, Request, Get, nothing_yet, after_all, misses};
ghost use Rattle.page_cache.specs.MissLaws.{WorkedMisses};

/// Requests for pages whose misses are worked out by hand, as a contract. The call does nothing.
pub fn worked_misses()
    ensures { WorkedMisses }
{}

/// The misses of requests add up, as a contract. The call does nothing.
pub fn misses_add_up()
    ensures { (room : ℕ) (before : MostRecent) (first rest : List Request)
        → misses room before (first ++ rest) ≡ misses room before first + misses room (after_all room before first) rest }
{}

/// Of pages that are asked for, a list with less room holds the first ones of a list with more, as a contract: so with
/// more room no get misses that would hit with less. The call does nothing.
pub fn less_room_holds_the_first()
    ensures { (room more : ℕ) (asked : List ℕ) → room ≤ more
        → (after_all room nothing_yet (map Get asked)).pages ≡ take room (after_all more nothing_yet (map Get asked)).pages }
{}
