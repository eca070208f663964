// Code for any board and for any pool: what it says is proved from the traits alone.
ghost use Rattle.std.specs.Prelude.{◌≡◌, nat_lt};
ghost use Rattle.sets.specs.Sets.{size, smallest, without};
ghost use Rattle.boards_and_pools.specs.Boards.{BoardAnswers};
ghost use Rattle.boards_and_pools.specs.Pools.{PoolAnswers};
ghost use Rattle.boards_and_pools.specs.declared.answers.Answer.{Answer};

use super::answers::Answer;
use super::boards::BoardCall;
use super::pools::PoolCall;
use board::Board;
use pool::Pool;

// A call that can be put to a T.
pub trait Call<T> {
    // what may be answered to the call, and what the T is then
    ghost answers: { T → Self → Answer → T → Type 0 };

    // Puts the call.
    fn put(&self, to: &mut T) -> Answer
        ensures { answers to.old self.now result to.new };
}

// Takes off the smallest row.
pub fn pop_first<B: Board>(board: &mut B) -> Option<u32>
    ensures answer { result ≡ smallest (B.rows board.old) }
    ensures after { B.rows board.new ≡ without (B.rows board.old) result }
{
    let row = board.first()?;
    board.remove(row);
    Some(row)
}

impl<B: Board> Call<B> for BoardCall {
    ghost answers = { λ board call said board'. BoardAnswers (B.rows board) call said (B.rows board') };

    fn put(&self, board: &mut B) -> Answer {
        match *self {
            BoardCall::Add(row) => Answer::Said(board.add(row)),
            BoardCall::Remove(row) => Answer::Said(board.remove(row)),
            BoardCall::First => Answer::Found(board.first()),
            BoardCall::PopFirst => Answer::Found(pop_first(board)),
            BoardCall::Clear => {
                board.clear();
                Answer::Done
            }
        }
    }
}

// Takes a block and gives it back, and says whether there was one. The pool is then as it was.
pub fn take_and_return<P: Pool>(pool: &mut P) -> bool
    ensures answer { result ≡ nat_lt 0 (size (P.free pool.old)) }
    ensures after { P.free pool.new ≡ P.free pool.old }
{
    // Not by `is_some_and`: what it says of a closure that holds the pool is not split by whether there was a block.
    match pool.take() {
        Some(block) => pool.give(block),
        None => false,
    }
}

impl<P: Pool> Call<P> for PoolCall {
    ghost answers = { λ pool call said pool'. PoolAnswers (P.free pool) call said (P.free pool') };

    fn put(&self, pool: &mut P) -> Answer {
        match *self {
            PoolCall::Take => Answer::Found(pool.take()),
            PoolCall::TakeAndReturn => Answer::Said(take_and_return(pool)),
            PoolCall::Give(block) => Answer::Said(pool.give(block)),
            PoolCall::Blocks => Answer::Count(pool.blocks()),
            PoolCall::FreeCount => Answer::Count(pool.free_count()),
            PoolCall::IsFree(block) => Answer::Said(pool.is_free(block)),
        }
    }
}
