// What an accepted program is owed: what check promises of it is what the law of the machine asks for.
#![tactic(auto)]

ghost use Rattle.std.specs.Prelude.{ℕ, ◌<◌, length};
ghost use Rattle.plan.specs.Plans.{Fullest};
ghost use Rattle.checked.specs.Law.{Plans};
ghost use Rattle.runtime.specs.Law.{Memory, Enough, Law};
ghost use Rattle.verifier.specs.declared.program.Program.{Program};
ghost use Rattle.verifier.specs.Checking.{Checked, meaning_of};

/// The law of every program that check has accepted, in all memory in which it may be started, with its fullest plans, for hosts of
/// any makes that have their states in `S`.
pub fn law_of_accepted<S>() -> u8
    ensures { (p : Program) → Checked p → (plans : Plans) → ((f : ℕ) → f < length (meaning_of p).functions → Fullest (meaning_of p) f (plans f)) → (m : Memory) → Enough (meaning_of p) m → Law S (meaning_of p) plans m }
{
    0
}
