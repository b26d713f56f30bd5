// The worked cases, as one theorem about the definitions that the contracts cite.
#![tactic(auto)]

ghost use Rattle.vectors.specs.Cases.{WorkedCases};

pub fn cases_hold() -> u8
    ensures { WorkedCases }
{
    0
}
