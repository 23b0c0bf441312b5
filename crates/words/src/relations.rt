// The six relations between a signed word and an operand.
ghost use Rattle.std.specs.Prelude.{◌≡◌, ◌↔◌, IsTrue};
ghost use Rattle.words.specs.Relations.{Related, related};
ghost use Rattle.words.specs.Wholes.{signed};

use super::operand::Operand;
use super::wholes::whole;

// How a word is compared with another operand, by the whole numbers that they stand for.
#[derive(Clone, Copy, PartialEq, Eq, Debug)]
pub enum Relation {
    Greater,
    Less,
    Equal,
    LessOrEqual,
    GreaterOrEqual,
    NotEqual,
}

impl Relation {
    fn between(self, x: i64, y: i64) -> bool
        ensures value { result ≡ related self x y }
        ensures decides { IsTrue result ↔ Related self x y }
    {
        match self {
            Relation::Greater => x > y,
            Relation::Less => x < y,
            Relation::Equal => x == y,
            Relation::LessOrEqual => x <= y,
            Relation::GreaterOrEqual => x >= y,
            Relation::NotEqual => x != y,
        }
    }

    pub fn holds<T: Operand>(self, a: u32, b: T) -> bool
        ensures value { result ≡ related self (signed 32 a) (T.value_of b) }
        ensures decides { IsTrue result ↔ Related self (signed 32 a) (T.value_of b) }
    {
        self.between(whole(a), b.whole())
    }
}
