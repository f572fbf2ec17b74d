// pieces: runs the specification's pieces (SPECIFICATION, section 13), those that are proved as well, and prints what the engine
// finds, one line for each.
#![tactic(auto)]

mod piece;
mod point;
mod rebuilds;
mod say;
mod table;

use piece::{Asked, Piece, Question};
use std::io;

const PIECES: [Piece; 13] = [
    Piece {
        name: "four vertices:",
        n: 4,
        corners: b"021013123203",
        targets: b"---0--01-012",
        asked: &[
            Asked {
                name: "P1",
                question: Question::Target(6),
            },
            Asked {
                name: "P2",
                question: Question::Target(3),
            },
            Asked {
                name: "P3",
                question: Question::Target(11),
            },
            Asked {
                name: "P4",
                question: Question::RightBack(6),
            },
        ],
    },
    Piece {
        name: "P5",
        n: 3,
        corners: b"012021",
        targets: b"---0--01-",
        asked: &[Asked {
            name: "P5",
            question: Question::Target(6),
        }],
    },
    Piece {
        name: "P6 two vertices:",
        n: 2,
        corners: b"021013123203",
        targets: b"---0--01-012",
        asked: &[],
    },
    Piece {
        name: "P6 1,025 vertices:",
        n: 1025,
        corners: b"021013123203",
        targets: b"---0--01-012",
        asked: &[],
    },
    Piece {
        name: "P7",
        n: 4,
        corners: b"021013123203",
        targets: b"---0--01-102",
        asked: &[],
    },
    Piece {
        name: "P8",
        n: 4,
        corners: b"012031132230",
        targets: b"---0--01-012",
        asked: &[],
    },
    Piece {
        name: "P9",
        n: 6,
        corners: b"021123203014304135345415",
        targets: b"---0--01-012013413",
        asked: &[Asked {
            name: "P9",
            question: Question::Target(17),
        }],
    },
    Piece {
        name: "P10",
        n: 6,
        corners: b"021123203014304135345415",
        targets: b"---0--01-012013314",
        asked: &[],
    },
    // An octahedron whose inner triangle's edges run round as a ring, from 3 to 4 to 5: its LeftBacks need the second read.
    Piece {
        name: "ring 3 4 5:",
        n: 6,
        corners: b"021015123204054135243345",
        targets: b"---0--01-412052013",
        asked: &[Asked {
            name: "ring 3 4 5:",
            question: Question::LeftBack(9),
        }],
    },
    // The same octahedron with the ring the other way round: its RightBacks need the second read.
    Piece {
        name: "ring 3 5 4:",
        n: 6,
        corners: b"021015123204054135243345",
        targets: b"---0--01-512032014",
        asked: &[Asked {
            name: "ring 3 5 4:",
            question: Question::RightBack(9),
        }],
    },
    // A ring of 3 to 9 apart from the anchors, (i,i+1,i+3) and (i,i+3,i+2) with targets i+1, i+2, i+4: every local rule holds and
    // no path ends.
    Piece {
        name: "ring apart:",
        n: 10,
        corners: b"012021346365457476568587679698783739894843935954",
        targets: b"---0--01-457568679783894935346",
        asked: &[],
    },
    // The same with (3,4,6) replaced by (0,3,4).
    Piece {
        name: "ring apart, broken:",
        n: 10,
        corners: b"012021034365457476568587679698783739894843935954",
        targets: b"---0--01-457568679783894935346",
        asked: &[],
    },
    // Two octahedra sharing only their poles 0 and 3, equators 2,1,4,5 and 6,7,8,9. The wood is not looked at.
    Piece {
        name: "two octahedra:",
        n: 10,
        corners: b"021014045052312341354325067078089096376387398369",
        targets: b"------------------------------",
        asked: &[],
    },
];

fn run_all(rt: &impl Print, pieces: &[Piece]) -> io::Result<()> {
    for piece in pieces {
        piece.run(rt)?;
    }
    Ok(())
}

fn main(rt: HostRuntime) -> io::Result<()> {
    let pieces = PIECES;
    run_all(&rt, &pieces)?;
    rebuilds::run(&rt)?;
    point::run(&rt)
}
