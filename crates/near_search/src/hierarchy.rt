//! What a search for the nearest goes through.
ghost use Rattle.metric_laws.specs.Calls.{RulerContinues};
ghost use Rattle.std.specs.Prelude.{◌≡◌, ℕ, ◌+◌, ◌-◌, ◌^◌, ◌<◌, ◌≤◌, [], ◌∷◌, Bool, IsTrue, List, IfOk, IfErr, OnOk};
ghost use Rattle.metric_laws.specs.Log.{LogExtends};
ghost use Rattle.near_search.specs.Items.{items_of};
ghost use Rattle.near_search.specs.Least.{least_of};
ghost use Rattle.near_search.specs.Queue.{Nodes};
ghost use Rattle.near_search.specs.Visits.{CanVisit, Enqueues, Expands};

use crate::best::Best;
use crate::queue::Queue;
use metric_laws::Ruler;
use spb_edge::Memory;

/// Objects at places, and nodes over them that a search opens as it comes to them. What it holds doesn't
/// change in a search, and may be known to contracts or not.
pub trait Hierarchy {
    /// Why an object wasn't measured or a node wasn't opened.
    type Error;

    // what it holds
    ghost Content: { Type 0 };

    ghost content: { Self → Content };

    // whether that is what its calls find
    ghost is_known: { Content → Bool };

    // what is under its nodes
    ghost nodes: { Content → Nodes };

    // the object at a place
    ghost object_at: { Content → ℕ → List ℕ };

    // the node of a level at a place may be opened
    ghost can_open: { Content → ℕ → ℕ → Type 0 };

    // the object of an id at a place may be measured
    ghost can_measure: { Content → ℕ → ℕ → Type 0 };

    // those objects are among the ones that a ruler measures
    ghost suits: { Content → (List ℕ → Type 0) → Type 0 };

    // no bound in the node of a level at a place is too great for what is under it
    ghost is_sound: { Content → ℕ → ℕ → Type 0 };

    // between the two states so many nodes were opened and objects measured, and nothing else happened
    ghost Follows: { ℕ → Self → Self → Type 0 };

    // between the two states a call ended by this error
    ghost Fails: { Self.Error → Self → Self → Type 0 };

    // what an error says of what is held if a node wasn't opened
    ghost TellsOfNode: { Content → Self.Error → Type 0 };

    // what it says if an object wasn't measured, by a ruler of those objects
    ghost TellsOfObject: { Content → (List ℕ → Type 0) → Self.Error → Type 0 };

    /// Why a search ends that runs out of memory, which may happen at any time.
    fn out_of_memory(&self, memory: Memory) -> Self::Error
        ensures fails { Fails result self.now self.now }
        ensures tells { TellsOfNode (content self.now) result };

    /// Measures the query with the object of the id at the place.
    fn measure<R: Ruler>(
        &mut self,
        id: u32,
        place: u32,
        ruler: &mut R,
        q: &[u8],
    ) -> Result<u32, Self::Error>
        requires place { can_measure (content self.old) id place }
        requires objects { suits (content self.old) (R.admitted (R.kind ruler.old)) }
        requires query { R.admitted (R.kind ruler.old) q.now }
        requires room { R.count ruler.old < 2 ^ 64 - 1 }
        ensures kept { content self.new ≡ content self.old }
        ensures follows { OnOk result (Follows 1 self.old self.new) }
        ensures fails { IfErr result (λ e. Fails e self.old self.new) }
        ensures tells { IfErr result (TellsOfObject (content self.old) (R.admitted (R.kind ruler.old))) }
        ensures distance { IsTrue (is_known (content self.old))
            → IfOk result (λ distance. distance ≡ R.dist (R.kind ruler.old) q.now (object_at (content self.old) place)) }
        ensures ruler { RulerContinues R.kind R.count ruler.old ruler.new }
        ensures count { OnOk result (R.count ruler.new ≡ R.count ruler.old + 1) }
        ensures log { IsTrue (is_known (content self.old))
            → OnOk result (LogExtends (R.log ruler.old) (R.log ruler.new) ((q.now, object_at (content self.old) place) ∷ [])) };

    /// Puts the items of the node of the level at the place into the queue; those that the best so far prune may be
    /// left out.
    fn open(
        &mut self,
        level: u8,
        place: u32,
        best: &Best,
        queue: &mut Queue,
    ) -> Result<(), Self::Error>
        requires node { can_open (content self.old) level place }
        ensures kept { content self.new ≡ content self.old }
        ensures follows { OnOk result (Follows 1 self.old self.new) }
        ensures fails { IfErr result (λ e. Fails e self.old self.new) }
        ensures tells { IfErr result (TellsOfNode (content self.old)) }
        ensures few { OnOk result (Enqueues (nodes (content self.old)) (CanVisit (can_open (content self.old)) (can_measure (content self.old)))
            level (items_of queue.old) (items_of queue.new)) }
        ensures rows { IsTrue (is_known (content self.old)) → OnOk result (Expands (nodes (content self.old)) (is_sound (content self.old))
            best.now.most (least_of best.now) level place (items_of queue.old) (items_of queue.new)) };

    // nothing happened between a state and itself
    ghost follows_itself: { (s : Self) → Follows 0 s s };

    // what happened adds up
    ghost follows_after: { (m n : ℕ) (old mid new : Self) → Follows m old mid → Follows n mid new → Follows (m + n) old new };

    // so that a later error is one of the whole
    ghost fails_after: { (n : ℕ) (e : Self.Error) (old mid new : Self) → Follows n old mid → Fails e mid new → Fails e old new };
}
