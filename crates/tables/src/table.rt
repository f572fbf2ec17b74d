// Tables of numbers: one place read, all places marked.
ghost use Rattle.std.specs.Prelude.{◌≡◌, length, replicate};
ghost use Rattle.mesh.specs.Limits.{at, unused_mark};

use crate::limits::UNUSED;

// What stands at place i of a table; past its end the mark, as `at` of the definitions, which the contracts over tables cite.
pub fn at(table: &[u16], i: usize) -> u16
    ensures { result ≡ at table.now i }
{
    table.get(i).copied().unwrap_or(UNUSED)
}

// One call of `fill`, with a name of its own: public, and docs/CLAIMS.md says what it promises.
pub fn mark_all(table: &mut [u16])
    ensures { table.new ≡ replicate (length table.old) unused_mark }
{
    table.fill(UNUSED);
}
