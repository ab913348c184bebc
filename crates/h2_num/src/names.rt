ghost use Rattle.std.specs.Prelude.{◌≡◌, ◌∷◌, [], ◌++◌, length, IfOk, OnOk, OnErr, refl, Some};
ghost use Rattle.std.specs.Ordering.{nat_cmp};
ghost use Rattle.std.specs.Bool.{nat_eq};
ghost use Rattle.std.specs.Cmp.{partial_equiv_from_equiv};
ghost use Rattle.std.specs.Cmp.Lexicographic.{slice_cmp, pointwise, nat_list_eq_equiv, nat_list_cmp_total, texts_po, texts_ties};
ghost use Rattle.h2_num.specs.Names.{names_eq, names_equiv};

use crate::memory::NoMemory;
use std::alloc::Global;
use std::cmp::Ordering;
use std::marker::Model;

/// The bytes of one name.
#[derive(Drop, Debug)]
pub struct Name {
    items: Vec<u8>,
}

impl Model for Name {
    ghost use Rattle.std.specs.Prelude.{List, ℕ};

    ghost Value = { List ℕ };

    ghost view = { λ b. b.items.items };
}

impl Name {
    /// A copy of the slice.
    pub fn from_slice(alloc: Global, s: &[u8]) -> Result<Name, NoMemory>
        ensures { IfOk result (λ b. b ≡ s.now) }
    {
        let items = Vec::from_slice(alloc, s)?;
        Ok(Name { items })
    }

    /// The bytes.
    pub fn as_slice(&self) -> &[u8]
        ensures { result.now ≡ self.now }
    {
        &self.items
    }

    /// An equal value.
    pub fn copy(&self, alloc: Global) -> Result<Name, NoMemory>
        ensures { IfOk result (λ b. b ≡ self.now) }
    {
        Name::from_slice(alloc, self.as_slice())
    }
}

impl PartialEq for Name {
    ghost eq = { pointwise nat_eq };

    ghost laws = { partial_equiv_from_equiv nat_list_eq_equiv };

    fn eq(&self, other: &Name) -> bool {
        self.as_slice() == other.as_slice()
    }
}

impl Eq for Name {
    ghost laws = { nat_list_eq_equiv };
}

impl PartialOrd for Name {
    ghost partial_cmp = { λ x y. Some (slice_cmp nat_cmp x y) };

    ghost laws = { texts_po };

    fn partial_cmp(&self, other: &Name) -> Option<Ordering> {
        Some(self.cmp(other))
    }
}

impl Ord for Name {
    ghost cmp = { slice_cmp nat_cmp };

    ghost total = { nat_list_cmp_total };

    ghost matches_partial_cmp = { λ x y. refl };

    ghost matches_eq = { texts_ties };

    fn cmp(&self, other: &Name) -> Ordering {
        self.as_slice().cmp(other.as_slice())
    }
}

/// Names, seen as the list of them.
#[derive(Drop, Debug)]
pub struct Names {
    list: Vec<Name>,
}

impl Model for Names {
    ghost use Rattle.std.specs.Prelude.{List, ℕ};

    ghost Value = { List (List ℕ) };

    ghost view = { λ b. b.list.items };
}

impl Names {
    /// No name.
    pub fn new(alloc: Global) -> Names
        ensures { result ≡ [] }
    {
        Names {
            list: Vec::new(alloc),
        }
    }

    /// Appends one name, or changes nothing.
    pub fn push(&mut self, n: Name) -> Result<(), NoMemory>
        ensures ok { OnOk result (self.new ≡ self.old ++ n ∷ []) }
        ensures err { OnErr result (self.new ≡ self.old) }
    {
        self.list.push(n)?;
        Ok(())
    }

    /// The names.
    pub fn items(&self) -> &[Name]
        ensures { result.now ≡ self.now }
    {
        &self.list
    }
}

impl PartialEq for Names {
    ghost eq = { names_eq };

    ghost laws = { partial_equiv_from_equiv names_equiv };

    #[tactic(auto, unfolding(crate::specs::Names::names_eq))]
    fn eq(&self, other: &Names) -> bool {
        self.items() == other.items()
    }
}

impl Eq for Names {
    ghost laws = { names_equiv };
}
