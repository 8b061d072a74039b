// The machine as it runs: numbers in slots, without kinds. Its frame records, and that it is the checked machine.
#![tactic(auto)]

ghost use Rattle.bytecode.specs.Program.{Program};
ghost use Rattle.host.specs.Hosts.{Host, Lawful};
ghost use Rattle.runtime.specs.Behaviour.{Behaves};
ghost use Rattle.checked.specs.Law.{Plans, Accepted};
ghost use Rattle.runtime.specs.Relation.{Small};
ghost use Rattle.runtime.specs.Law.{Memory, Enough, Law};

/// A calling frame: its function, the place after its call, and the slot where its variables begin.
#[derive(Clone, Copy, Debug, Default, PartialEq, Eq)]
pub struct FrameRecord {
    pub function: usize,
    pub place: usize,
    pub base: usize,
}

/// What a started machine is owed over every list of requests, for hosts of any makes that have their states in `S`.
pub fn law_stands<S>() -> u8
    ensures { (P : Program) (plans : Plans) → Accepted P plans → Small P → (m : Memory) → Enough P m → Law S P plans m }
{
    0
}

/// A run with a host of any make is a run with its behaviour, whose states are lists of calls.
// The checked machine has such a theorem too: a theorem of both would need their definitions as parameters.
pub fn behaviour_stands<S>() -> u8
    ensures { (host : Host S) (s : S) → Lawful host → Behaves host s }
{
    0
}
