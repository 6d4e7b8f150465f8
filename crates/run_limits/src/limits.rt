// When a run stops.
ghost use Rattle.std.specs.Prelude.{◌≡◌, map, sum, nat_lt};
ghost use Rattle.spec_hosts.specs.Ends.{are_many, bytes_written};

use spec_hosts::wasm_form::Answer;

// The most answers, and the most bytes that they may have written.
const MOST_ANSWERS: usize = 1_048_576;

const MOST_WRITTEN: u128 = 268_435_456;

/// Whether a run that has made so many steps may make a further one, where it may make at most so many.
pub fn may_step(made: u64, most: u64) -> bool
    ensures { result ≡ nat_lt made most }
{
    made < most
}

/// Whether no further host call is answered after some answers, which have written so many bytes.
pub fn are_many(answers: &[Answer], written: u128) -> bool
    requires written { written ≡ sum (map bytes_written answers.now) }
    ensures { result ≡ are_many answers.now }
{
    answers.len() >= MOST_ANSWERS || written >= MOST_WRITTEN
}
