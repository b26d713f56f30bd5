ghost use Rattle.replies.specs.Machines.{GivesBack};

// What a machine's own replies give back, as one theorem about the definitions that the contracts cite.
pub fn gives_back() -> u8
    ensures { GivesBack }
{
    0
}
