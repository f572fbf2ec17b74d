// The two hands of an edge. Place i of the references is on the left where i is even; bit 0 of a service byte is the left's.
ghost use Rattle.std.specs.Prelude.{◌≡◌};
ghost use Rattle.mesh.specs.Array.{hand_at, front_place};
ghost use Rattle.mesh.specs.Reading.{bit_of};
ghost use Rattle.tables.specs.Hand.{hand_meant};

#[derive(Clone, Copy, Debug, PartialEq, Eq)]
pub enum Hand {
    Left,
    Right,
}

impl Hand {
    // The hand of a place of the references.
    pub fn of_place(i: usize) -> Hand
        ensures { hand_meant result ≡ hand_at i }
    {
        if i % 2 == 0 { Hand::Left } else { Hand::Right }
    }

    // The place of a Front among the two of its edge.
    pub fn place(self) -> usize
        ensures { result ≡ front_place (hand_meant self) 0 }
    {
        self as usize
    }

    // This hand's bit of a service byte.
    pub fn bit(self, byte: u8) -> u8
        ensures { result ≡ bit_of (hand_meant self) byte }
    {
        (byte >> (self as u8)) & 1
    }
}
