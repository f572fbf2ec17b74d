// An answer as it is written. Its bytes are digits alone, so they are the digits of one number.
ghost use Rattle.std.specs.Prelude.{[], ◌∷◌, ◌+◌, MatchResult};
ghost use Rattle.tables.specs.Refusal.{number};
ghost use Rattle.frames.specs.Frames.{width};
ghost use Rattle.arraytext.specs.AnswerLines.{value_length, Spells};

use frames::frame::WIDTH;
use questions::answer::Reached;
use tables::refusal::Refusal;

#[derive(Clone, Copy)]
pub(crate) struct Field {
    pub count: usize,
    pub value: usize,
}

// How many numbers can be written in WIDTH digits; of a larger one the last digits are.
pub(crate) const SPAN: usize = 1 << (4 * WIDTH);

// F0 and the number in two digits.
impl From<Refusal> for Field {
    ghost from_gives = { λ r f. Spells value_length f (number r ∷ []) };

    #[tactic(auto, using(crate::proofs::FieldLaws::refusal_spelled))]
    fn from(refusal: Refusal) -> Field {
        Field {
            count: 4,
            value: 240 * 256 + refusal.number() as usize,
        }
    }
}

// 0 and the value.
impl From<u16> for Field {
    ghost from_gives = { λ v f. Spells value_length f (0 ∷ v ∷ []) };

    #[tactic(auto, using(crate::proofs::FieldLaws::value_spelled))]
    fn from(v: u16) -> Field {
        Field {
            count: 1 + WIDTH,
            value: v as usize % SPAN,
        }
    }
}

// 0, the vertex and the reads.
impl From<Reached> for Field {
    ghost from_gives = { λ r f. Spells (value_length + width) f (0 ∷ r.vertex ∷ r.reads ∷ []) };

    #[tactic(auto, using(crate::proofs::FieldLaws::values_spelled))]
    fn from(reached: Reached) -> Field {
        Field {
            count: 1 + 2 * WIDTH,
            value: (reached.vertex as usize % SPAN) * SPAN + reached.reads as usize % SPAN,
        }
    }
}

impl<A: Into<Field>, E: Into<Field>> From<Result<A, E>> for Field {
    ghost from_gives = { λ r f. MatchResult r (λ a. A.converts a f) (λ e. E.converts e f) };

    fn from(answer: Result<A, E>) -> Field {
        match answer {
            Ok(value) => value.into(),
            Err(refusal) => refusal.into(),
        }
    }
}
