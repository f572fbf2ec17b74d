// A mesh that met none of 1 to 13, and a used edge of one.
ghost use Rattle.std.specs.Prelude.{◌≡◌, ◌<◌, ◌*◌, true};
ghost use Rattle.mesh.specs.Wood.{used};
ghost use Rattle.mesh.specs.Verdict.{verdict};

use tables::sided::Sided;

#[derive(Clone, Copy)]
pub(crate) struct Accepted<'a> {
    pub sided: Sided<'a>,
    pub ghost accepted: { verdict sided.size.vertices sided.triangles.now sided.wood.now ≡ 0 },
}

#[derive(Clone, Copy)]
pub(crate) struct Edge<'a> {
    pub mesh: Accepted<'a>,
    pub index: usize,
    pub ghost inside: { index < 3 * mesh.sided.size.vertices },
    pub ghost in_use: { used index ≡ true },
}
