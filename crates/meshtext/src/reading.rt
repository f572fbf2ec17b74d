// A text's shape, and the numbers in its frames. All frames after the head have one length, so a frame's number gives its place.
ghost use Rattle.std.specs.Prelude.{◌≡◌, true, not, cond, ◌++◌, ◌+◌, ◌-◌, ◌*◌, ◌<◌, ◌≤◌, length, IfOk};
ghost use Rattle.mesh.specs.Search.{first, every};
ghost use Rattle.mesh.specs.Wood.{anchor_targets};
ghost use Rattle.tables.specs.Refusal.{number_met};
ghost use Rattle.frames.specs.Digits.{number_at};
ghost use Rattle.frames.specs.Frames.{width, triangle_code};
ghost use Rattle.frames.specs.Lines.{frame_place};
ghost use Rattle.meshtext.specs.Reading.{is_frame, frame_count, triangle_count, placed, is_text, number_in, numbers_from, triangles_in, targets_in};
ghost use Rattle.meshtext.specs.Shape.{sizes_met};

use frames::frame::{FRAME_LENGTH, HEAD_CODE, HEAD_LENGTH, TRIANGLE_CODE, VERTEX_CODE, WIDTH};
use frames::{is_line, number_at};
use tables::edge::ANCHOR_TARGETS;
use tables::refusal::{Refusal, refuse_if};
use tables::size::Size;

// A text of so many frames behind its head and nothing more, whatever stands in them.
#[derive(Clone, Copy)]
struct Frames<'a> {
    text: &'a [u8],
    count: usize,
    ghost whole: { length text.now ≡ frame_place width count },
}

impl<'a> Frames<'a> {
    // Whether frame i is a line of that code: a byte, as `is_line` takes it.
    fn is(self, i: usize, code: u8) -> bool
        requires { i < self.count }
        ensures { result ≡ is_frame width code self.entry.text.now i }
    {
        is_line(self.text, HEAD_LENGTH + FRAME_LENGTH * i, code, 3 * WIDTH)
    }

    // How many triangle frames there are before the first frame that is none.
    fn triangles(self) -> usize
        ensures { result ≡ first (λ i. not (is_frame width triangle_code self.entry.text.now i)) self.entry.count }
    {
        (0..self.count)
            .find(|i| !self.is(*i, TRIANGLE_CODE))
            .unwrap_or(self.count)
    }

    // The frames from that one on are vertex frames.
    fn are_vertices(self, from: usize) -> bool
        ensures { result ≡ every (placed width self.entry.text.now from) self.entry.count }
    {
        (from..self.count).all(|i| self.is(i, VERTEX_CODE))
    }
}

// The text of a mesh, and how many triangle and vertex frames follow its head.
#[derive(Clone, Copy)]
pub(crate) struct MeshText<'a> {
    text: &'a [u8],
    triangles: usize,
    vertices: usize,
    ghost text_is: { is_text width text.now ≡ true },
    ghost triangles_are: { triangles ≡ triangle_count width text.now },
    ghost vertices_are: { vertices ≡ frame_count width text.now - triangle_count width text.now },
}

impl<'a> MeshText<'a> {
    // Number 20.
    pub(crate) fn of(text: &'a [u8]) -> Result<MeshText<'a>, Refusal>
        ensures met { number_met result ≡ cond (is_text width text.now) 0 20 }
        ensures ok { IfOk result (λ m. m.text.now ≡ text.now) }
    {
        refuse_if(!is_line(text, 0, HEAD_CODE, WIDTH), Refusal::NotAText)?;
        let count = (text.len() - HEAD_LENGTH) / FRAME_LENGTH;
        refuse_if(
            text.len() != HEAD_LENGTH + FRAME_LENGTH * count,
            Refusal::NotAText,
        )?;
        let frames = Frames { text, count };
        let triangles = frames.triangles();
        refuse_if(!frames.are_vertices(triangles), Refusal::NotAText)?;
        Ok(MeshText {
            text,
            triangles,
            vertices: count - triangles,
        })
    }

    // Numbers 1 and 2, by n and by the counts of frames.
    pub(crate) fn size(&self) -> Result<Size, Refusal>
        ensures met { number_met result ≡ sizes_met self.now.text.now }
        ensures ok { IfOk result (λ s. s.vertices ≡ number_at width self.now.text.now 2) }
    {
        let size = Size::of(number_at(self.text, 2, WIDTH) as usize)?;
        refuse_if(3 * self.triangles != size.corners(), Refusal::Length)?;
        refuse_if(9 + 3 * self.vertices != size.edges(), Refusal::Length)?;
        Ok(size)
    }

    // Number q of the frames, three to a frame.
    fn number_in(&self, q: usize) -> u16
        requires { q < 3 * frame_count width self.now.text.now }
        ensures { result ≡ number_in width self.now.text.now q }
    {
        let place = HEAD_LENGTH + FRAME_LENGTH * (q / 3) + 2 + WIDTH * (q % 3);
        number_at(self.text, place, WIDTH)
    }

    // Fills the table with the numbers of the frames from number `from` on. Its own loop: a function of crate
    // tables that takes a closure would have to ask that it may be called.
    fn fill_numbers(&self, from: usize, table: &mut [u16])
        requires { from + length table.old ≤ 3 * frame_count width self.now.text.now }
        ensures { table.new ≡ numbers_from width self.now.text.now from (length table.old) }
    {
        for (i, place) in table.iter_mut().enumerate() {
            *place = self.number_in(from + i);
        }
    }

    pub(crate) fn fill_corners(&self, corners: &mut [u16])
        requires { length corners.old ≡ 3 * triangle_count width self.now.text.now }
        ensures { corners.new ≡ triangles_in width self.now.text.now }
    {
        self.fill_numbers(0, corners);
    }

    // The anchors' edges, which are every mesh's, then the targets in the vertex frames.
    pub(crate) fn fill_wood(&self, wood: &mut [u16])
        requires { length wood.old ≡ 9 + 3 * (frame_count width self.now.text.now - triangle_count width self.now.text.now) }
        ensures { wood.new ≡ anchor_targets ++ targets_in width self.now.text.now }
    {
        wood[..9].copy_from_slice(&ANCHOR_TARGETS);
        self.fill_numbers(3 * self.triangles, &mut wood[9..]);
    }
}
