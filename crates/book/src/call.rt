// A call of a run, and its reply.
use crate::market::Market;
use crate::refusal::Refusal;

#[derive(Clone, Copy)]
pub enum Call<'a, K> {
    Trade(K, i32),
    Change(Market),
    Minimum,
    // scenarios and the table of their values
    Required(usize, &'a [u32]),
}

// The answer to a call that is not turned away.
#[derive(Clone, Copy, PartialEq, Debug)]
pub enum Answer {
    Done,
    // centavos, and the price they are for
    Minimum(u64, Option<u32>),
    Required(u64),
}

// The reply to a call: its answer, or why it is turned away.
pub type Reply = Result<Answer, Refusal>;
