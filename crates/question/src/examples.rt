// The examples worked out by hand, proved of the definitions that the contracts cite.
ghost use Rattle.std.specs.Prelude.{◌≡◌, true};
ghost use Rattle.question.specs.Examples.{AllExamples};

use books::examples::worked_examples;

/// Says yes: the worked examples hold.
// A function, as a theorem counts only where the contract of a public function names it.
pub fn all_examples() -> bool
    ensures answer { result ≡ true }
    ensures fact { AllExamples }
{
    worked_examples()
}
