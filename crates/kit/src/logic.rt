// Two tests joined. Both are made, which for tests on numbers costs less than a branch.
ghost use Rattle.std.specs.Prelude.{◌≡◌};
ghost use Rattle.kit.specs.Choice.{both as both_of, either as either_of};

pub fn both(first: bool, second: bool) -> bool
    ensures { result ≡ both_of first second }
{
    if first { second } else { false }
}

pub fn either(first: bool, second: bool) -> bool
    ensures { result ≡ either_of first second }
{
    if first { true } else { second }
}
