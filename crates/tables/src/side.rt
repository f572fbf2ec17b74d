// Positions of the flat triangle table: position 3t + k is the side from corner k of triangle t to the next.
ghost use Rattle.std.specs.Prelude.{◌≡◌, ◌+◌, ◌*◌, ◌/◌, ◌%◌, ◌<◌};
ghost use Rattle.mesh.specs.Sides.{next};
ghost use Rattle.tables.specs.Turning.{turn_in_table};

use crate::table::at;

// The position so many corners on in the same triangle.
fn turned(p: u16, by: usize) -> usize
    requires { by < 3 }
    ensures { result ≡ 3 * (p / 3) + (p + by) % 3 }
{
    let q = p as usize;
    3 * (q / 3) + (q + by) % 3
}

// The position of the next corner of the same triangle.
pub fn next(p: u16) -> usize
    ensures { result ≡ next p }
{
    turned(p, 1)
}

// The position of the corner before, which is the third corner of the side at p.
pub fn before(p: u16) -> usize
    ensures { result ≡ next (next p) }
{
    turned(p, 2)
}

// The next side round the vertex that the side at p leaves: the reverse of the side before it in its triangle.
pub fn turn_at(twins: &[u16], p: u16) -> u16
    ensures { result ≡ turn_in_table twins.now p }
{
    at(twins, before(p))
}
