// The frames that are written. Each writer is lent the part of the output buffer that begins where the last frame ended.
ghost use Rattle.std.specs.Prelude.{◌≡◌, ◌+◌, ◌*◌, ◌≤◌, sum_by};
ghost use Rattle.frames.specs.Fields.{spelled};
ghost use Rattle.frames.specs.Frames.{width, line, head_frame, refusal_line, triple_frame, edge_frame};
ghost use Rattle.frames.specs.Put.{Wrote};

use crate::digit::store_digits;
use tables::limits::{FEWEST_VERTICES, MOST_CORNERS, MOST_EDGES, MOST_VERTICES};
use tables::refusal::Refusal;

// The digits of each number.
pub const WIDTH: usize = 3;

pub const LINE_FEED: u8 = b'\n';

// The frames' codes. They stay bytes: `put_triple` and `is_line` promise something for each code that a byte can be.
pub const HEAD_CODE: u8 = 0;

pub const TRIANGLE_CODE: u8 = 1;

pub const VERTEX_CODE: u8 = 2;

pub const EDGE_CODE: u8 = 3;

pub const REFUSAL_CODE: u8 = 15;

// The bytes of a head, of a triangle or vertex frame, and of an edge's frame.
pub const HEAD_LENGTH: usize = 3 + WIDTH;

pub const FRAME_LENGTH: usize = 3 + 3 * WIDTH;

pub const EDGE_LENGTH: usize = 4 + 3 * WIDTH;

// The bytes of the longest mesh's text, with its triangles and its inner vertices, and of the longest array's text.
pub const MESH_LIMIT: usize = HEAD_LENGTH
    + FRAME_LENGTH * (MOST_CORNERS / 3 + MOST_VERTICES - FEWEST_VERTICES);

pub const ARRAY_LIMIT: usize = HEAD_LENGTH + EDGE_LENGTH * (MOST_EDGES - 6);

// The bytes of a line of fields, each its digit count and its number.
fn line_length(fields: &[(usize, usize)]) -> usize
    requires { sum_by (λ f. f.0) fields.now ≤ 4 * width }
    ensures { result ≡ 3 + sum_by (λ f. f.0) fields.now }
{
    3 + fields.iter().map(|&(k, _)| k).sum::<usize>()
}

// A line of fields. Where the part has no room for all of it, nothing is written.
fn put_line(part: &mut [u8], code: u8, fields: &[(usize, usize)]) -> Result<usize, Refusal>
    requires { sum_by (λ f. f.0) fields.now ≤ 4 * width }
    ensures { Wrote (line code (spelled fields.now)) part.old result part.new }
{
    let room = line_length(fields);
    if part.len() < room {
        return Err(Refusal::Length);
    }
    store_digits(&mut part[..2], code as usize);
    let mut at = 2;
    for &(k, x) in fields {
        store_digits(&mut part[at..at + k], x);
        at += k;
    }
    part[at] = LINE_FEED;
    Ok(room)
}

#[tactic(auto, unfolding(crate::specs::Frames::head_frame), using(crate::proofs::FieldLaws::spelled_one))]
pub fn put_head(part: &mut [u8], n: usize) -> Result<usize, Refusal>
    ensures { Wrote (head_frame width n) part.old result part.new }
{
    put_line(part, HEAD_CODE, &[(WIDTH, n)])
}

// The one line that a refusal prints. By its number, since there is a line for each number that a byte can be.
#[tactic(auto, unfolding(crate::specs::Frames::refusal_line), using(crate::proofs::FieldLaws::spelled_one))]
pub fn put_refusal(part: &mut [u8], number: u8) -> Result<usize, Refusal>
    ensures { Wrote (refusal_line number) part.old result part.new }
{
    put_line(part, REFUSAL_CODE, &[(2, number as usize)])
}

// A triangle with its corners, or a vertex with its targets.
#[tactic(auto, using(crate::proofs::FieldLaws::spelled_triple))]
pub fn put_triple(part: &mut [u8], code: u8, a: u16, b: u16, c: u16) -> Result<usize, Refusal>
    ensures { Wrote (triple_frame width code a b c) part.old result part.new }
{
    let (a, b, c) = (a as usize, b as usize, c as usize);
    put_line(part, code, &[(WIDTH, a), (WIDTH, b), (WIDTH, c)])
}

// An edge with its LeftFront, its RightFront and its service byte.
#[tactic(auto, using(crate::proofs::FieldLaws::spelled_edge))]
pub fn put_edge(
    part: &mut [u8],
    edge: usize,
    left: u16,
    right: u16,
    service: u8,
) -> Result<usize, Refusal>
    ensures { Wrote (edge_frame width edge left right service) part.old result part.new }
{
    let (left, right, service) = (left as usize, right as usize, service as usize);
    put_line(
        part,
        EDGE_CODE,
        &[(WIDTH, edge), (WIDTH, left), (WIDTH, right), (1, service)],
    )
}
