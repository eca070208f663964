// What single words of a script say.
ghost use Rattle.std.specs.Prelude.{◌≡◌, ℕ, ◌≤◌, ◌==◌, List, slice_index, MatchOption};
ghost use Rattle.row.specs.Kinds.{kind_word};
ghost use Rattle.script.specs.Words.{board_word, pool_word, finished_word, Spells, Read};

use super::commands::{BoardName, PoolName, Wrong};
use row::Kind;

// A value that a script writes as one of a few words. Not `FromStr`, which two of the types may not get here: they are of other crates.
pub trait Keyword: Sized {
    // the word of a value
    ghost spelling: { Self → List ℕ };

    // What has to stand in the word's place.
    const EXPECTED: &'static str;

    // The value of this word, if it is one of them. The match of each impl is its table of words.
    fn from_word(word: &str) -> Option<Self>
        ensures { MatchOption result ((x : Self) → word.now ≡ spelling x → ⊥) (λ x. word.now ≡ spelling x) };
}

// The value of which this is the word.
pub fn read_keyword<'a, T: Keyword>(word: &'a str) -> Result<T, Wrong<'a>>
    ensures { Read (λ x. word.now ≡ T.spelling x) result }
{
    T::from_word(word).ok_or(Wrong::Word {
        expected: T::EXPECTED,
        found: word,
    })
}

impl Keyword for BoardName {
    ghost spelling = { board_word };

    const EXPECTED: &'static str = "BOARD, word or chain";

    fn from_word(word: &str) -> Option<Self> {
        match word {
            "word" => Some(BoardName::Word),
            "chain" => Some(BoardName::Chain),
            _ => None,
        }
    }
}

impl Keyword for PoolName {
    ghost spelling = { pool_word };

    const EXPECTED: &'static str = "POOL, bitmap or freelist";

    fn from_word(word: &str) -> Option<Self> {
        match word {
            "bitmap" => Some(PoolName::Bitmap),
            "freelist" => Some(PoolName::FreeList),
            _ => None,
        }
    }
}

// As it is printed.
impl Keyword for Kind {
    ghost spelling = { kind_word };

    const EXPECTED: &'static str = "normal or abnormal";

    fn from_word(word: &str) -> Option<Self> {
        match word {
            "normal" => Some(Kind::Normal),
            "abnormal" => Some(Kind::Abnormal),
            _ => None,
        }
    }
}

// Whether a job is reported finished.
impl Keyword for bool {
    ghost spelling = { finished_word };

    const EXPECTED: &'static str = "finished or unfinished";

    fn from_word(word: &str) -> Option<Self> {
        match word {
            "finished" => Some(true),
            "unfinished" => Some(false),
            _ => None,
        }
    }
}

// The number that the word spells in decimal digits.
pub fn whole<'a>(word: &'a str, expected: &'static str) -> Result<u32, Wrong<'a>>
    ensures { Read (Spells word.now) result }
{
    let wrong = Wrong::Word {
        expected,
        found: word,
    };
    // `parse` would pass over a plus sign
    if word.starts_with('+') {
        return Err(wrong);
    }
    word.parse::<u32>().map_err(|_| wrong)
}

// A number of blocks, 1 to 64.
pub fn block_count<'a>(word: &'a str) -> Result<u32, Wrong<'a>>
    ensures { Read (λ n. Spells word.now n × (1 ≤ n) × (n ≤ 64)) result }
{
    let expected = "BLOCKS, a whole number from 1 to 64";
    match whole(word, expected)? {
        blocks @ 1..=64 => Ok(blocks),
        _ => Err(Wrong::Word {
            expected,
            found: word,
        }),
    }
}
