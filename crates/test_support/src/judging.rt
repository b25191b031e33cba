//! The comparison of an answer with the expected one.

ghost use Rattle.std.specs.Prelude.{◌≡◌, ◌↔◌, true, is_ok};

use crate::tally::is_wanted;
use std::alloc::Global;
use std::test::Fail;

/// Fails where `said` is not `want`.
pub fn compare(alloc: Global, said: &str, want: &str) -> Result<(), Fail>
    ensures { (is_ok result ≡ true) ↔ (said.now ≡ want.now) }
{
    if is_wanted(said, want) {
        return Ok(());
    }
    Err(Fail::new(format!(in alloc; "{said}, and not {want}")?))
}
