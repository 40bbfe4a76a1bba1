// Calls of the public functions of answer, each with the contract that its promises are about.
ghost use Rattle.std.specs.Prelude.{◌≡◌};
ghost use Rattle.rules.specs.Pages as Page;
ghost use Rattle.answer.specs.Answer.{number_of, answer_of};

use answer::{Answer, DecodeError};

pub fn number(e: DecodeError) -> u32
    ensures { result ≡ number_of e }
{
    answer::number(e)
}

pub fn refusal(number: u32) -> Answer
    ensures { result ≡ answer_of (Page.refusal number) }
{
    answer::refusal(number)
}
