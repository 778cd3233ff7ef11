//! The vector of an object, and the bounds by two vectors.
ghost use Rattle.std.specs.Prelude.{◌≡◌, ◌+◌, ◌^◌, ◌<◌, ◌≤◌, nat_le, length, All};
ghost use Rattle.metric_laws.specs.Log.{LogExtends, each_with};
ghost use Rattle.spb_defs.specs.Pivots.{vector_of, meets, is_sure, lower_bound};

use curve_laws::Vect;
use metric_laws::Ruler;
use spb_edge::Bytes;

/// The distances of the object to the pivots, in their order. It measures each once and takes no memory.
pub fn map_object<R: Ruler>(ruler: &mut R, pivots: &[Bytes], object: &[u8]) -> Vect
    requires few { length pivots.now ≤ 8 }
    requires pivots { All (R.admitted (R.kind ruler.old)) pivots.now }
    requires object { R.admitted (R.kind ruler.old) object.now }
    requires count { R.count ruler.old < 2 ^ 63 }
    ensures vector { result ≡ vector_of (R.dist (R.kind ruler.old)) pivots.now object.now }
    ensures kind { R.kind ruler.new ≡ R.kind ruler.old }
    ensures count { R.count ruler.new ≡ R.count ruler.old + length pivots.now }
    ensures log { LogExtends (R.log ruler.old) (R.log ruler.new) (each_with object.now pivots.now) }
{
    let mut at = [0; 8];
    let mut known = 0;
    for pivot in pivots {
        at[known] = ruler.measure(object, pivot.as_slice());
        known += 1;
    }
    Vect::of(&at[..known])
}

/// Whether no pivot shows that the two objects are further apart than the radius: `|q_i - o_i| <= r` for each
/// coordinate. The vectors have the same length.
pub fn meets(q: &Vect, o: &Vect, r: u32) -> bool
    requires { length q.now ≡ length o.now }
    ensures { result ≡ meets q.now r o.now }
{
    q.as_slice()
        .iter()
        .zip(o.as_slice())
        .all(|(&a, &b)| a.abs_diff(b) <= r)
}

/// Whether some pivot shows that the two objects are within the radius of each other: `q_i + o_i <= r` for some
/// coordinate, the sum taken in 64 bits. The vectors have the same length.
pub fn sure(q: &Vect, o: &Vect, r: u32) -> bool
    requires { length q.now ≡ length o.now }
    ensures { result ≡ is_sure q.now r o.now }
{
    q.as_slice()
        .iter()
        .zip(o.as_slice())
        .any(|(&a, &b)| is_within(a, b, r))
}

/// Whether the sum of the two distances is within the radius.
fn is_within(a: u32, b: u32, r: u32) -> bool
    ensures { result ≡ nat_le (a + b) r }
{
    u64::from(a) + u64::from(b) <= u64::from(r)
}

/// The lower bound of the distance of two objects: the greatest `|q_i - o_i|`, and 0 without coordinates. The vectors
/// have the same length.
pub fn lower(q: &Vect, o: &Vect) -> u32
    requires { length q.now ≡ length o.now }
    ensures { result ≡ lower_bound q.now o.now }
{
    let mut most = 0;
    for (&a, &b) in q.as_slice().iter().zip(o.as_slice()) {
        most = most.max(a.abs_diff(b));
    }
    most
}
