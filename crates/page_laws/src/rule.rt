//! The rules that a store's file keeps.
ghost use Rattle.std.specs.Prelude.{◌≡◌};
ghost use Rattle.page_laws.specs.Rules.{rule_name};

/// A rule of the file, which names what is damaged.
#[derive(Clone, Copy, Debug, PartialEq, Eq)]
pub enum Rule {
    /// The file is as long as its greatest number of objects asks for.
    Size,
    /// Where the gate is open, each field of the journal's header is in its range.
    Journal,
    /// Each field of the profile page is in its range.
    Profile,
    /// Each pivot record reads as an object of the space, and each that has no pivot is zero.
    Pivot,
    /// Each root and child is a page of the pool, and none is reached twice.
    Page,
    /// Each page of a tree reads as a node, of the kind of its level.
    Node,
    /// Each node but the root has the least number of entries or branches.
    Fill,
    /// Entries and branches rise strictly by key and id, and a branch has those of its first entry.
    Order,
    /// A curve tree's key is that of the object's cell, and an id tree's key is the id.
    Key,
    /// A branch's corners are the exact box of what is under it, and in an id tree they are 0.
    Box,
    /// Each entry's slot holds its object, and each slot that no entry names is free.
    Slot,
    /// The two trees of a collection hold the same ids and slots.
    Match,
}

impl Rule {
    /// The rule's name in messages, in lower case.
    pub fn name(self) -> &'static str
        ensures { result.now ≡ rule_name self }
    {
        match self {
            Rule::Size => "size",
            Rule::Journal => "journal",
            Rule::Profile => "profile",
            Rule::Pivot => "pivot",
            Rule::Page => "page",
            Rule::Node => "node",
            Rule::Fill => "fill",
            Rule::Order => "order",
            Rule::Key => "key",
            Rule::Box => "box",
            Rule::Slot => "slot",
            Rule::Match => "match",
        }
    }
}
