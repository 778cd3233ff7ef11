//! What a ruler does at the end of its count.
use super::*;
use std::test::Fail;

/// The metric of one object, the empty string.
#[derive(Clone, Copy, Debug)]
struct OneObject;

impl Metric for OneObject {
    ghost use Rattle.std.proofs.Common.{◌≡◌, [], refl, sym, ◌∙◌, rules};

    ghost admitted = { λ m object. object ≡ [] };

    ghost dist = { λ m a b. 0 };

    ghost top = { λ m. 0 };

    ghost metric_laws = { λ m. record {
      distance = record {
        zero_iff_equal = λ a b f g. ((λ e. f ∙ sym g), (λ e. refl));
        symmetric = λ a b f g. refl;
        triangle = λ a b c f g h. Prim.search rules;
      };
      bounded = λ a b f g. Prim.search rules;
    } };

    fn admits(&self, object: &[u8]) -> bool {
        object.is_empty()
    }

    fn distance(&self, a: &[u8], b: &[u8]) -> u32 {
        0
    }

    fn top(&self) -> u32 {
        0
    }
}

#[test]
fn counts_to_the_last_number(rt: HostRuntime) -> Result<(), Fail> {
    let mut ruler = Counted {
        metric: OneObject,
        count: u64::MAX - 1,
    };
    assert_eq!(rt; ruler.measure(&[], &[]), 0);
    assert_eq!(rt; ruler.count(), u64::MAX);
    Ok(())
}
