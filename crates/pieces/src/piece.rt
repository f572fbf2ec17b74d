// One piece: its tables from digits, its build, and where that is done what is asked of its array and the mesh rebuilt from it.
ghost use Rattle.std.specs.Prelude.{◌≤◌, length};

use crate::rebuilds::rebuilt;
use crate::say;
use crate::table::fill;
use garment::{UNUSED, build};
use std::io;

#[derive(Clone, Copy)]
pub(crate) enum Question {
    Target(usize),
    LeftBack(usize),
    RightBack(usize),
}

// A question, and how its line begins.
#[derive(Clone, Copy)]
pub(crate) struct Asked {
    pub name: &'static str,
    pub question: Question,
}

// Corners and targets are digits; '-' is unused.
#[derive(Clone, Copy)]
pub(crate) struct Piece {
    pub name: &'static str,
    pub n: usize,
    pub corners: &'static [u8],
    pub targets: &'static [u8],
    pub asked: &'static [Asked],
    ghost corners_fit: { length corners.now ≤ 48 },
    ghost targets_fit: { length targets.now ≤ 30 },
}

#[derive(Clone, Copy)]
struct Built<'a> {
    n: usize,
    references: &'a [u16],
    service: &'a [u8],
}

impl Built<'_> {
    fn answer(&self, rt: &impl Print, asked: Asked) -> io::Result<()> {
        let name = asked.name;
        match asked.question {
            Question::Target(j) => {
                say::target(rt, name, garment::target(self.n, self.references, j))
            }
            Question::LeftBack(j) => {
                let answer = garment::left_back(self.n, self.references, self.service, j);
                say::edge(rt, name, "LeftBack", j, answer)
            }
            Question::RightBack(j) => {
                let answer = garment::right_back(self.n, self.references, self.service, j);
                say::edge(rt, name, "RightBack", j, answer)
            }
        }
    }
}

impl Piece {
    // Everything about the piece, by tables of its lengths.
    fn show(
        &self,
        rt: &impl Print,
        triangles: &mut [u16],
        wood: &mut [u16],
        references: &mut [u16],
        service: &mut [u8],
    ) -> io::Result<()> {
        let outcome = build(self.n, triangles, wood, references, service);
        say::outcome(rt, self.name, "build", outcome)?;
        if outcome.is_err() {
            return Ok(());
        }
        let built = Built {
            n: self.n,
            references,
            service,
        };
        for asked in self.asked {
            built.answer(rt, *asked)?;
        }
        rebuilt(rt, self.name, self.n, references, wood, triangles)
    }

    pub(crate) fn run(&self, rt: &impl Print) -> io::Result<()> {
        let mut triangles = [UNUSED; 48];
        let mut wood = [UNUSED; 30];
        let mut references = [UNUSED; 60];
        let mut service = [0u8; 30];
        let c = self.corners.len();
        let e = self.targets.len();
        fill(&mut triangles, self.corners);
        fill(&mut wood, self.targets);
        self.show(
            rt,
            &mut triangles[..c],
            &mut wood[..e],
            &mut references[..2 * e],
            &mut service[..e],
        )
    }
}
