//! The locks that are acquired before the statements of a section. The one error is a refused growth.

ghost use Rattle.std.specs.Prelude.{◌≡◌, ◌++◌, codes, map, string_bytes, IfOk, OnOk};
ghost use Rattle.code.specs.Working.NumberLists.{number_lists};
ghost use Rattle.flow.specs.Working.PointList.{point_at};
ghost use Rattle.language_server.specs.Working.Sets.{AddsTakes, listed_text, take_before_of, point_takes_of};

use crate::named_section::NamedSection;
use crate::takes::Take;
use flow::points::PointRef;
use source::memory::NoMemory;
use std::alloc::{AllocError, Global};
use std::collections::BTreeSet;

impl NamedSection<'_> {
    // The label of a list of lock paths.
    fn label(&self, alloc: Global, list: &[u8]) -> Result<String, AllocError>
        ensures { IfOk result (λ label. string_bytes label ≡ codes "take" ++ listed_text self.now list.now) }
    {
        let mut label = String::from_str(alloc, "take")?;
        self.push_paths(&mut label, list)?;
        Ok(label)
    }

    // Inserts the take before the statement that starts at byte `start`.
    fn add_take(
        &self,
        alloc: Global,
        found: &mut BTreeSet<Take>,
        start: usize,
        list: &[u8],
    ) -> Result<(), NoMemory>
        ensures { OnOk result (AddsTakes (take_before_of self.now start list.now) found.old found.new) }
    {
        if list.is_empty() {
            return Ok(());
        }
        let label = self.label(alloc, list)?;
        found.insert(Take { start, label })?;
        Ok(())
    }

    /// Inserts the takes before `points`, each with its list.
    pub fn add_takes(
        &self,
        alloc: Global,
        found: &mut BTreeSet<Take>,
        points: &[PointRef<'_>],
        lists: &[Vec<u8>],
    ) -> Result<(), NoMemory>
        ensures { OnOk result (AddsTakes (point_takes_of self.now (map point_at points.now) (number_lists lists.now))
            found.old found.new) }
    {
        for (i, point) in points.iter().enumerate() {
            let Some(list) = lists.get(i) else {
                return Ok(());
            };
            self.add_take(alloc, found, point.start(), list)?;
        }
        Ok(())
    }
}
