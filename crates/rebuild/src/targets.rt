// The wood that references tell of, by Target.
ghost use Rattle.std.specs.Prelude.{◌≡◌, ◌<◌, length};
ghost use Rattle.mesh.specs.Limits.{wood_length, references_length};
ghost use Rattle.mesh.specs.Rebuild.{rebuilt_target, rebuilt_wood};

use questions::walk::target;
use tables::limits::UNUSED;
use tables::size::Size;

// The references given, as many as their size asks. The questions have a like value of their own: shared, it would be public with the
// loads that are all that another layout of an array replaces.
#[derive(Clone, Copy)]
pub(crate) struct Given<'a> {
    pub size: Size,
    pub references: &'a [u16],
    pub ghost whole: { length references.now ≡ references_length size.vertices },
}

impl Given<'_> {
    // Where edge j ends; the mark, as a wood holds it, where Target refuses: j is unused, or the array is torn there.
    #[tactic(auto, unfolding(mesh::specs::Reading::read_target_of, mesh::specs::Rebuild::rebuilt_target, mesh::specs::Limits::out_of_range))]
    fn target(self, j: usize) -> u16
        requires { j < wood_length self.size.vertices }
        ensures { result ≡ rebuilt_target self.entry.size.vertices self.entry.references.now j }
    {
        match target(self.size.vertices, self.references, j) {
            Ok(reached) => reached.vertex,
            Err(_) => UNUSED,
        }
    }

    // Its own loop: a function of crate tables that takes a closure would have to ask that it may be called.
    pub(crate) fn decode_wood(self, wood: &mut [u16])
        requires { length wood.old ≡ wood_length self.size.vertices }
        ensures { wood.new ≡ rebuilt_wood self.entry.size.vertices self.entry.references.now }
    {
        for (j, place) in wood.iter_mut().enumerate() {
            *place = self.target(j);
        }
    }
}
