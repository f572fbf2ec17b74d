// A mesh whose sides come in pairs, with the two tables of a check: where each side's reverse lies, and where each edge's side.
ghost use Rattle.std.specs.Prelude.{◌≡◌, length};
ghost use Rattle.mesh.specs.Limits.{triangles_length};
ghost use Rattle.mesh.specs.Ladder.{first_of};
ghost use Rattle.mesh.specs.Verdict.{table_ladder};
ghost use Rattle.tables.specs.Checked.{TwinTable, PositionTable};

use crate::size::Size;

#[derive(Clone, Copy)]
pub struct Sided<'a> {
    pub size: Size,
    pub triangles: &'a [u16],
    pub wood: &'a [u16],
    pub twins: &'a [u16],
    pub positions: &'a [u16],
    pub ghost whole: { length triangles.now ≡ triangles_length size.vertices },
    pub ghost clear: { first_of (table_ladder size.vertices triangles.now) ≡ 0 },
    pub ghost twin_table: { TwinTable triangles.now twins.now },
    pub ghost position_table: { PositionTable size.vertices triangles.now wood.now positions.now },
}
