// The checked machine, against which every run is measured, and what accepted programs are owed of it.
#![tactic(auto)]

ghost use Rattle.bytecode.specs.Program.{Program};
ghost use Rattle.host.specs.Hosts.{Host, Lawful};
ghost use Rattle.checked.specs.Behaviour.{Behaves};
ghost use Rattle.checked.specs.Machine.{Sizes};
ghost use Rattle.checked.specs.Law.{Plans, Accepted, Law};
ghost use Rattle.checked.specs.Samples.{Samples};

/// The law over every list of requests, for hosts of any makes that have their states in `S`.
pub fn law_holds<S>() -> u8
    ensures { (P : Program) (plans : Plans) → Accepted P plans → (sizes : Sizes) → Law S P plans sizes }
{
    0
}

/// What the program that multiplies six by seven answers, among other worked examples.
pub fn samples_stand() -> u32
    ensures { Samples result }
{
    42
}

/// A host of any make does what its behaviour does, whose states are lists of calls.
// The running machine has such a theorem too: a theorem of both would need their definitions as parameters.
pub fn behaviour_stands<S>() -> u8
    ensures { (host : Host S) (s : S) → Lawful host → Behaves host s }
{
    0
}
