// What `answers` writes: a line for each index from 0 to 3n, then one for each vertex from 0 to n. What a line is about, its code says.
// A field's length depends on its answer, so each writer answers how many bytes it wrote, and the next is lent the part behind them.
ghost use Rattle.std.specs.Prelude.{◌≡◌, ◌+◌, ◌*◌, ◌<◌, ◌≤◌, ◌++◌, length};
ghost use Rattle.mesh.specs.Search.{gather};
ghost use Rattle.frames.specs.Digits.{digits};
ghost use Rattle.frames.specs.Frames.{width, line};
ghost use Rattle.frames.specs.Put.{WroteInRoom, Stored};
ghost use Rattle.arraytext.specs.ArrayText.{told};
ghost use Rattle.arraytext.specs.AnswerLines.{index_answers, vertex_answers, about_code, answer_line, answers_text, answer_lines_of, index_most, vertex_most, line_most, answers_limit, spelled, SpellsAll};

use crate::field::{Field, SPAN};
use crate::lines::put_lines;
use crate::reading::ArrayText;
use frames::frame::{LINE_FEED, WIDTH};
use frames::put_digits;
use questions::backs::{left_back, right_back};
use questions::ends::{edge, source};
use questions::fronts::{left_front, right_front};
use questions::walk::target;
use tables::limits::{MOST_EDGES, MOST_REFERENCES, MOST_VERTICES, UNUSED};
use tables::refusal::Refusal;
use tables::size::Size;

// What a line is about; the value of each is the line's code.
#[derive(Clone, Copy)]
enum About {
    Index = 6,
    Vertex = 7,
}

impl About {
    fn code(self) -> u8
        ensures { result ≡ about_code self }
    {
        self as u8
    }
}

// The bytes of the longest line of each, six answers of which Target's has its reads besides, or one.
const INDEX_MOST: usize = 3 + WIDTH + 6 * (1 + WIDTH) + WIDTH;

const VERTEX_MOST: usize = 3 + WIDTH + (1 + WIDTH);

// The bytes of the longest output.
pub const ANSWERS_LIMIT: usize = (3 * MOST_VERTICES + 1) * INDEX_MOST
    + (MOST_VERTICES + 1) * VERTEX_MOST;

// The tables that the questions are put to, of any length: the questions test them, so nothing is known of them here.
#[derive(Clone, Copy)]
struct Array<'a> {
    size: Size,
    references: &'a [u16],
    service: &'a [u8],
}

impl<'a> Array<'a> {
    // The questions as they follow one another in a line.
    fn about_index(&self, j: usize) -> [Field; 6]
        ensures { SpellsAll index_most result (index_answers self.now.size.vertices self.now.references.now self.now.service.now j) }
    {
        let n = self.size.vertices;
        [
            source(n, j).into(),
            target(n, self.references, j).into(),
            left_front(n, self.references, j).into(),
            right_front(n, self.references, j).into(),
            left_back(n, self.references, self.service, j).into(),
            right_back(n, self.references, self.service, j).into(),
        ]
    }

    fn about_vertex(&self, u: usize) -> [Field; 1]
        ensures { SpellsAll vertex_most result (vertex_answers self.now.size.vertices u) }
    {
        [edge(self.size.vertices, u).into()]
    }

    // Two loops: one over both kinds would take an Fn bound with a const parameter, which the borrow checker does not cover.
    fn put_answers(&self, out: &mut [u8]) -> usize
        requires { answers_limit ≤ length out.old }
        ensures { Stored answers_limit (answers_text self.now.size.vertices self.now.references.now self.now.service.now) 0 out.old result out.new }
    {
        let mut at = 0;
        for j in 0..self.size.edges() + 1 {
            at += put_line(&mut out[at..], About::Index, j, &self.about_index(j));
        }
        for u in 0..self.size.vertices + 1 {
            at += put_line(&mut out[at..], About::Vertex, u, &self.about_vertex(u));
        }
        at
    }
}

// A line: its code, what it is about, the answers, the line feed.
fn put_line(part: &mut [u8], about: About, x: usize, answers: &[Field]) -> usize
    requires { line_most (length (spelled answers.now)) ≤ length part.old }
    ensures { Stored (line_most (length (spelled answers.now))) (line (about_code about) (digits width x ++ spelled answers.now)) 0 part.old result part.new }
{
    let mut at = put_digits(part, 2 + WIDTH, about.code() as usize * SPAN + x % SPAN).unwrap();
    for answer in answers {
        at += put_digits(&mut part[at..], answer.count, answer.value).unwrap();
    }
    part[at] = LINE_FEED;
    at + 1
}

fn answer_array(text: ArrayText, out: &mut [u8]) -> Result<usize, Refusal>
    requires { answers_limit ≤ length out.old }
    ensures { WroteInRoom answers_limit (told answers_text text.entry.size.vertices text.entry.text.now) out.old result out.new }
{
    let size = text.size;
    let mut references = [UNUSED; MOST_REFERENCES];
    let references = &mut references[..size.references()];
    text.read_references(references);
    let mut service = [0u8; MOST_EDGES];
    let service = &mut service[..size.edges()];
    text.read_service(service);
    let array = Array {
        size,
        references,
        service,
    };
    Ok(array.put_answers(out))
}

// The whole of what `answers` writes for a text; refused where the buffer has no room for the longest output.
#[tactic(auto, unfolding(crate::specs::AnswerLines::answer_lines_of))]
pub fn answer_lines(text: &[u8], out: &mut [u8]) -> Result<usize, Refusal>
    ensures { WroteInRoom answers_limit (answer_lines_of text.now) out.old result out.new }
{
    put_lines(text, out, ANSWERS_LIMIT, answer_array)
}
