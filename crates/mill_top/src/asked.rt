// What the words ask for.
ghost use Rattle.std.specs.Prelude.{◌≡◌};
ghost use Rattle.job_file.specs.Reading.{texts};
ghost use Rattle.mill_top.specs.Commands.{asked_of};

use endings::begins_with;

/// What the first word asks for.
#[derive(Clone, Copy, Debug, PartialEq, Eq)]
pub enum Asked {
    /// It is `simulate`.
    Simulation,
    /// It is `sample`.
    Sample,
    /// It is `check`.
    Check,
    /// It is none of these: `mill`, or a word that `mill` refuses.
    Mill,
}

/// What the words ask for.
pub fn asked_by(words: &Vec<String>) -> Asked
    ensures { result ≡ asked_of (texts words.now) }
{
    if begins_with(words, "simulate") {
        Asked::Simulation
    } else if begins_with(words, "sample") {
        Asked::Sample
    } else if begins_with(words, "check") {
        Asked::Check
    } else {
        Asked::Mill
    }
}
