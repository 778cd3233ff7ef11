ghost use Rattle.std.specs.Prelude.{◌≡◌, ℕ, ◌↔◌, List, Some, IsTrue};
ghost use Rattle.metrics_builtin.specs.declared.Space.{Space};
ghost use Rattle.metrics_builtin.specs.Space.{fits, IsValid};
ghost use Rattle.spb_defs.specs.ObjectText.{object_of, text_of};

/// Each object of a space that fits has one text, which is read as that object, and no other text is
/// read.
pub fn one_text()
    ensures { (space : Space) (text object : List ℕ) → IsTrue (fits space)
        → ((object_of space text ≡ Some object) ↔ (IsValid space object × (text ≡ text_of space object))) }
{}
