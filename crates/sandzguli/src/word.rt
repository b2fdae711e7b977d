// An outcome, what a pattern says of empty text, and which generations accept a page, as one 64-bit word each, for C
// (house format).
ghost use Rattle.std.specs.Prelude.{◌≡◌};
ghost use Rattle.generations.specs.Generations.{generations_number};
ghost use Rattle.page.specs.Answers.{option_of, itself};
ghost use Rattle.walk.specs.Answers.{outcome_meant};
ghost use Rattle.sandzguli.specs.Words.{outcome_word, FitsWord, empty_text_word};

use generations::Generations;
use records::kind_number;
use rules::refusal::refusal_number;
use walk::Outcome;

// Accepted: four times the count of bytes, and the kind. Refused: the highest bit, the refusal's number, the record.
pub fn outcome_word(outcome: Outcome) -> u64
    requires { FitsWord (outcome_meant outcome) }
    ensures { result ≡ outcome_word (outcome_meant outcome) }
{
    match outcome {
        Ok(accepted) => {
            accepted.written as u64 % 2305843009213693952 * 4 + kind_number(accepted.kind)
        }
        Err(refused) => {
            9223372036854775808 + refusal_number(refused.refusal) * 65536 + refused.index as u64
        }
    }
}

// Covered: 1 where the pattern matches empty text, else 0. Not covered: 2.
pub fn empty_text_word(answer: Option<bool>) -> u64
    ensures { result ≡ empty_text_word (option_of itself answer) }
{
    match answer {
        Some(empty) => empty as u64,
        None => 2,
    }
}

pub fn generations_word(answer: Generations) -> u64
    ensures { result ≡ generations_number answer }
{
    match answer {
        Generations::Neither => 0,
        Generations::Older => 1,
        Generations::Newer => 2,
        Generations::Both => 3,
    }
}
