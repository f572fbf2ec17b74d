// A build: the sizes, the check, then the references and the service bytes.
ghost use Rattle.std.specs.Prelude.{◌≡◌};
ghost use Rattle.array.specs.Build.{lengths_fit, Build};

use crate::accepted::Accepted;
use tables::limits::{MOST_CORNERS, MOST_EDGES, UNUSED};
use tables::refusal::{Refusal, refuse_if};
use tables::sided::Sided;
use tables::size::Size;
use wood::check_mesh;

// The lengths of the four tables are those that n asks. Each call that tests lengths has other tables: a test of two lists of lengths
// would say less of them and save nothing.
#[tactic(auto, unfolding(crate::specs::Build::lengths_fit))]
fn lengths_fit(size: Size, triangles: usize, wood: usize, references: usize, service: usize) -> bool
    ensures { result ≡ lengths_fit size.vertices triangles wood references service }
{
    triangles == size.corners()
        && wood == size.edges()
        && references == size.references()
        && service == size.edges()
}

// The array of the mesh with these triangles and this wood. A refusal changes neither output.
pub fn build(
    n: usize,
    triangles: &[u16],
    wood: &[u16],
    references: &mut [u16],
    service: &mut [u8],
) -> Result<(), Refusal>
    ensures { Build n triangles.now wood.now references.old service.old result references.new service.new }
{
    let size = Size::of(n)?;
    let fit = lengths_fit(
        size,
        triangles.len(),
        wood.len(),
        references.len(),
        service.len(),
    );
    refuse_if(!fit, Refusal::Length)?;
    let mut twins = [UNUSED; MOST_CORNERS];
    let mut positions = [UNUSED; MOST_EDGES];
    let twins = &mut twins[..size.corners()];
    let positions = &mut positions[..size.edges()];
    check_mesh(n, triangles, wood, twins, positions)?;
    let mesh = Accepted {
        sided: Sided {
            size,
            triangles,
            wood,
            twins,
            positions,
        },
    };
    mesh.fill_references(references);
    mesh.fill_service(service);
    Ok(())
}
