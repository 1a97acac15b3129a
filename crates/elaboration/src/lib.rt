// Elaboration: what declarations as they are written stand for. The function stands for the theorem that is its contract; without
// the proof the crate fails.

#![tactic(auto)]

ghost use Rattle.elaboration.specs.Theorems.{ChecksWf};

// What checks is a well-formed environment.
pub fn checks_wf_stands() -> u8
    ensures { ChecksWf }
{
    0
}
