ghost use Rattle.std.specs.Prelude.{◌≡◌, IfOk, OnOk, OnErr, IsSome, None};
ghost use Rattle.std.specs.Option.{option_copied};
ghost use Rattle.std.specs.FinMap as map;
ghost use Rattle.h2_contents.specs.Pages.{KeepsBelow};

use crate::page::Page;
use h2_num::NoMemory;
use std::alloc::Global;
use std::collections::BTreeMap;
use std::marker::Model;

/// The pages of a file that are kept, by their numbers.
#[derive(Drop)]
pub struct Pages {
    pages: BTreeMap<u64, Page>,
}

impl Model for Pages {
    ghost use Rattle.std.specs.Prelude.{List, ℕ};
    ghost use Rattle.std.specs.Ordering.{nat_cmp};
    ghost use Rattle.std.specs.Coded.{coded_ℕ, coded_list};
    ghost use Rattle.std.specs.FinMap as map;

    ghost Value = { map.FinMap nat_cmp (List ℕ) };

    ghost coded = { map.code coded_ℕ (coded_list coded_ℕ) };

    ghost view = { λ p. map.from_entries p.pages.entries };
}

impl Pages {
    /// No page.
    pub fn new(alloc: Global) -> Pages
        ensures { result ≡ map.empty }
    {
        Pages {
            pages: BTreeMap::new(alloc),
        }
    }

    /// The page with a number.
    pub fn get(&self, number: u64) -> Option<&Page>
        ensures { option_copied result ≡ map.get self.now number }
    {
        self.pages.get(&number)
    }

    /// Keeps a page, or changes nothing.
    pub fn insert(&mut self, number: u64, page: Page) -> Result<(), NoMemory>
        ensures ok { OnOk result (self.new ≡ map.insert self.old number page) }
        ensures err { OnErr result (self.new ≡ self.old) }
    {
        self.pages.insert(number, page)?;
        Ok(())
    }

    /// Changes a page that is kept.
    pub fn replace(&mut self, number: u64, page: Page)
        requires { IsSome (map.get self.old number) }
        ensures { self.new ≡ map.insert self.old number page }
    {
        let Ok(_) = self.pages.insert(number, page) else {
            unreachable!()
        };
    }

    /// Takes all pages from a number on away, or changes nothing.
    pub fn keep_below(&mut self, number: u64) -> Result<(), NoMemory>
        ensures ok { OnOk result (KeepsBelow number self.old self.new) }
        ensures err { OnErr result (self.new ≡ self.old) }
    {
        let _ = self.pages.split_off(&number)?;
        Ok(())
    }

    /// An equal value.
    pub fn copy(&self, alloc: Global) -> Result<Pages, NoMemory>
        ensures { IfOk result (λ copy. copy ≡ self.now) }
    {
        let mut pages = BTreeMap::new(alloc);
        for (number, page) in self.pages.iter() {
            pages.insert(*number, page.copy(alloc)?)?;
        }
        Ok(Pages { pages })
    }
}
