// Answers as C takes them.
ghost use Rattle.std.specs.Prelude.{◌≡◌};
ghost use Rattle.refusal.specs.Says.{number_of, value_of};

use refusal::Answer;

// The number is returned, 0 where nothing is refused; what goes with it is told through the number lent.
pub fn tell(told: Answer, answer: &mut usize) -> u8
    ensures number { result ≡ number_of told }
    ensures value { answer.new ≡ value_of told }
{
    *answer = refusal::value(told);
    refusal::number(told)
}
