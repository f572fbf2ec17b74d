// The array that a question is put to, where its tables have the lengths that their size asks: 1 and 2 are past. And an edge of it,
// without and with the service bytes.
ghost use Rattle.std.specs.Prelude.{◌≡◌, ◌*◌, ◌<◌, length, IfOk};
ghost use Rattle.mesh.specs.Limits.{references_length, service_length};
ghost use Rattle.mesh.specs.Reading.{references_fit};
ghost use Rattle.tables.specs.Refusal.{number_met};
ghost use Rattle.questions.specs.Order.{sizes_met};

use tables::refusal::{Refusal, refuse_if};
use tables::size::Size;

#[derive(Clone, Copy)]
pub(crate) struct References<'a> {
    pub size: Size,
    pub fronts: &'a [u16],
    pub ghost fits: { length fronts.now ≡ references_length size.vertices },
}

impl<'a> References<'a> {
    pub(crate) fn of(n: usize, fronts: &'a [u16]) -> Result<References<'a>, Refusal>
        ensures met { number_met result ≡ sizes_met n (references_fit n fronts.now) }
        ensures ok { IfOk result (λ r. (r.size.vertices ≡ n) × (r.fronts.now ≡ fronts.now)) }
    {
        let size = Size::of(n)?;
        refuse_if(fronts.len() != size.references(), Refusal::Length)?;
        Ok(References { size, fronts })
    }
}

#[derive(Clone, Copy)]
pub(crate) struct Edge<'a> {
    pub references: References<'a>,
    pub index: usize,
    pub ghost inside: { index < 3 * references.size.vertices },
}

// And beside it the service bytes of its array.
#[derive(Clone, Copy)]
pub(crate) struct Served<'a> {
    pub edge: Edge<'a>,
    pub service: &'a [u8],
    pub ghost fits: { length service.now ≡ service_length edge.references.size.vertices },
}
