// An array's text read, torn or not. All frames after the head have one length, and the edges that have a frame are known, so an
// edge's index gives the place of its numbers.
ghost use Rattle.std.specs.Prelude.{◌≡◌, true, ◌+◌, ◌*◌, ◌<◌, ◌≤◌, length, IfOk};
ghost use Rattle.mesh.specs.Limits.{most_vertices, references_length, service_length};
ghost use Rattle.mesh.specs.Wood.{used};
ghost use Rattle.tables.specs.Refusal.{number_met};
ghost use Rattle.frames.specs.Frames.{width};
ghost use Rattle.frames.specs.Lines.{edge_place};
ghost use Rattle.arraytext.specs.ArrayText.{frame_number, edge_digits, number_in, is_edge_frame, is_array_text, reference_in, service_in, references_in, services_in, vertices_in, text_refusal, is_edge_line};

use frames::frame::{EDGE_CODE, EDGE_LENGTH, HEAD_CODE, HEAD_LENGTH, WIDTH};
use frames::{is_line, number_at};
use tables::edge::used;
use tables::limits::UNUSED;
use tables::refusal::{Refusal, refuse_if};
use tables::size::Size;

// The number that digits F alone write, which stand for the mark.
const HIGHEST: u16 = UNUSED >> (16 - 4 * WIDTH);

// The digits of an edge's frame.
const EDGE_DIGITS: usize = 3 * WIDTH + 1;

// A text that is an array's, and how many vertices its head tells.
#[derive(Clone, Copy)]
pub(crate) struct ArrayText<'a> {
    text: &'a [u8],
    pub size: Size,
    ghost framed: { is_array_text size.vertices text.now ≡ true },
}

impl<'a> ArrayText<'a> {
    // The head decides on the size before anything behind it is looked at.
    #[tactic(auto, unfolding(crate::specs::ArrayText::text_refusal, crate::specs::ArrayText::vertices_in), using(crate::proofs::ReadingLaws::head_number))]
    pub(crate) fn of(text: &'a [u8]) -> Result<ArrayText<'a>, Refusal>
        ensures range { number_met result ≡ text_refusal text.now }
        ensures ok { IfOk result (λ t. (t.text.now ≡ text.now) × (t.size.vertices ≡ vertices_in text.now)) }
    {
        refuse_if(!is_line(text, 0, HEAD_CODE, WIDTH), Refusal::NotAText)?;
        let size = Size::of(number_at(text, 2, WIDTH) as usize)?;
        refuse_if(!is_array_text(text, size), Refusal::NotAText)?;
        Ok(ArrayText { text, size })
    }

    // Place i of the references: edge i / 2, its LeftFront where i is even.
    #[tactic(auto, unfolding(crate::specs::ArrayText::reference_in, crate::specs::ArrayText::reference_meant), using(crate::proofs::ReadingLaws::array_line))]
    fn reference(&self, i: usize) -> u16
        requires { i < references_length self.now.size.vertices }
        ensures { result ≡ reference_in self.now.text.now i }
    {
        let edge = i / 2;
        if !used(edge) {
            return UNUSED;
        }
        let text = self.text;
        let reference = EdgeFrame { text, edge }.number(WIDTH + WIDTH * (i % 2), WIDTH);
        if reference == HIGHEST {
            UNUSED
        } else {
            reference
        }
    }

    #[tactic(auto, unfolding(crate::specs::ArrayText::service_in), using(crate::proofs::ReadingLaws::array_line, crate::proofs::ReadingLaws::digit_small_in))]
    fn service_byte(&self, j: usize) -> u8
        requires { j < service_length self.now.size.vertices }
        ensures { result ≡ service_in self.now.text.now j }
    {
        if !used(j) {
            return 0;
        }
        let text = self.text;
        EdgeFrame { text, edge: j }.number(3 * WIDTH, 1) as u8
    }

    // Two loops, as in crate array: a function that takes a closure would have to ask that it may be called.
    pub(crate) fn read_references(&self, references: &mut [u16])
        requires { length references.old ≡ references_length self.now.size.vertices }
        ensures { references.new ≡ references_in self.now.size.vertices self.now.text.now }
    {
        for (i, place) in references.iter_mut().enumerate() {
            *place = self.reference(i);
        }
    }

    pub(crate) fn read_service(&self, service: &mut [u8])
        requires { length service.old ≡ service_length self.now.size.vertices }
        ensures { service.new ≡ services_in self.now.size.vertices self.now.text.now }
    {
        for (j, place) in service.iter_mut().enumerate() {
            *place = self.service_byte(j);
        }
    }
}

// Where the frame of a used edge belongs in a text, whether or not it stands there.
#[derive(Clone, Copy)]
struct EdgeFrame<'a> {
    text: &'a [u8],
    edge: usize,
    ghost in_use: { used edge ≡ true },
    ghost below: { edge < 3 * most_vertices },
}

impl<'a> EdgeFrame<'a> {
    #[tactic(auto, unfolding(mesh::specs::Wood::used, crate::specs::ArrayText::frame_number))]
    fn frames_before(self) -> usize
        ensures { result ≡ frame_number self.entry.edge }
    {
        match self.edge {
            3 => 0,
            6 | 7 => self.edge - 5,
            _ => self.edge - 6,
        }
    }

    #[tactic(auto, using(crate::proofs::ReadingLaws::frame_within))]
    fn place(self) -> usize
        ensures { result ≡ edge_place width (frame_number self.entry.edge) }
    {
        HEAD_LENGTH + EDGE_LENGTH * self.frames_before()
    }

    // The number that k of its digits write, with i digits before them.
    #[tactic(auto, using(crate::proofs::ReadingLaws::frame_within, crate::proofs::ReadingLaws::number_whole_in))]
    fn number(self, i: usize, k: usize) -> u16
        requires line { is_edge_line self.text.now self.edge ≡ true }
        requires part { i + k ≤ edge_digits }
        requires whole { k ≤ width }
        ensures { result ≡ number_in self.entry.text.now self.entry.edge i k }
    {
        number_at(self.text, self.place() + 2 + i, k)
    }

    // A line of its code is there, with the edge's own number in it.
    #[tactic(auto, unfolding(crate::specs::ArrayText::is_edge_frame, crate::specs::ArrayText::is_edge_line))]
    fn stands(self) -> bool
        ensures { result ≡ is_edge_frame self.entry.text.now self.entry.edge }
    {
        is_line(self.text, self.place(), EDGE_CODE, EDGE_DIGITS)
            && self.number(0, WIDTH) as usize == self.edge
    }
}

// Unused indices have no frame, and none is asked.
#[tactic(auto, unfolding(crate::specs::ArrayText::is_edge_frame))]
fn is_edge_frame(text: &[u8], j: usize) -> bool
    requires { j < 3 * most_vertices }
    ensures { result ≡ is_edge_frame text.now j }
{
    !used(j) || EdgeFrame { text, edge: j }.stands()
}

// Nothing stands behind the last frame.
fn is_array_text(text: &[u8], size: Size) -> bool
    ensures { result ≡ is_array_text size.vertices text.now }
{
    let edges = size.edges();
    text.len() == HEAD_LENGTH + EDGE_LENGTH * (edges - 6)
        && (0..edges).all(|j| is_edge_frame(text, j))
}
