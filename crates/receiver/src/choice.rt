// One of two values, by a test.
ghost use Rattle.std.specs.Prelude.{◌≡◌};
ghost use Rattle.ground.specs.Choice.{pick};

// The first where the test holds, else the second.
#[tactic(auto, unfolding(ground::specs::Choice::pick))]
pub(crate) fn either<T: Copy>(test: bool, yes: T, no: T) -> T
    ensures { result ≡ pick test yes no }
{
    if test { yes } else { no }
}
