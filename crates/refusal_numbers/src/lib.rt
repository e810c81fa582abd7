// The numbers of refusals, for who prints them or hands them to C.

#![tactic(auto)]

ghost use Rattle.std.specs.Prelude.{◌≡◌};
ghost use Rattle.refusals.specs.Answers.{number, number_of};

use refusals::Refusal;

// The number of a refusal in document 01.
pub fn number(refusal: Refusal) -> u8
    ensures { result ≡ number refusal }
{
    refusal as u8
}

// That of a call which answers nothing but whether it is refused: 0 where it is accepted.
pub fn number_or_0(answer: Result<(), Refusal>) -> u8
    ensures { result ≡ number_of answer }
{
    match answer {
        Ok(()) => 0,
        Err(refusal) => number(refusal),
    }
}
