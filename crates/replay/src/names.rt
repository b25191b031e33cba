//! The numbers of names.

ghost use Rattle.std.specs.Prelude.{◌≡◌, ℕ, List, IfOk, None, OnOk, map, string_bytes};
ghost use Rattle.replay.specs.Working.Names.{found, IsWithName, AreNumbersOf};

use core_lang::shape::Pool;
use core_lang::tree::Section;
use source::memory::NoMemory;
use std::alloc::Global;
use std::collections::BTreeMap;

/// The numbers of the names of a list: for each name that of the first element with it, counted from 0.
#[derive(Drop)]
pub(crate) struct Numbers<'a> {
    numbers: BTreeMap<&'a [u8], usize>,
}

impl<'a> Numbers<'a> {
    fn new(alloc: Global) -> Numbers<'a>
        ensures { (name : List ℕ) → found result name ≡ None }
    {
        Numbers {
            numbers: BTreeMap::new(alloc),
        }
    }

    // Sets the number of `name`, in place of the one that it had.
    fn set(&mut self, name: &'a [u8], number: usize) -> Result<(), NoMemory>
        ensures { OnOk result (IsWithName name.now number self.old self.new) }
    {
        self.numbers.insert(name, number)?;
        Ok(())
    }

    /// The number of the first element with this name.
    pub(crate) fn find(&self, name: &[u8]) -> Option<usize>
        ensures { result ≡ found self.now name.now }
    {
        self.numbers.get(name).copied()
    }

    /// The numbers of the sections' names.
    pub(crate) fn of_sections(
        alloc: Global,
        sections: &'a [Section],
    ) -> Result<Numbers<'a>, NoMemory>
        ensures { IfOk result (AreNumbersOf (map (λ section. string_bytes section.name) sections.now)) }
    {
        let mut numbers = Numbers::new(alloc);
        for left in 0..sections.len() {
            let number = sections.len() - 1 - left;
            numbers.set(sections[number].name.as_str().as_bytes(), number)?;
        }
        Ok(numbers)
    }

    /// The numbers of the pools' names.
    pub(crate) fn of_pools(alloc: Global, pools: &'a [Pool]) -> Result<Numbers<'a>, NoMemory>
        ensures { IfOk result (AreNumbersOf (map (λ pool. string_bytes pool.name) pools.now)) }
    {
        let mut numbers = Numbers::new(alloc);
        for left in 0..pools.len() {
            let number = pools.len() - 1 - left;
            numbers.set(pools[number].name.as_str().as_bytes(), number)?;
        }
        Ok(numbers)
    }
}
