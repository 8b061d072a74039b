// Plans: shapes for the places of a program's code, and the sweep that finds them. The definitions stand in specs/; here are the
// theorems on them.
#![tactic(auto)]

ghost use Rattle.plan.specs.Judgement.{JudgementStands, SweepStands, TakesSuffice, OneFullest, StartsStand, TakesWithin};
ghost use Rattle.plan.specs.Samples.{Samples};

/// The most takes that the sweep of a program can have: 33 for each of its at most 4,096 code bytes.
/// A program is accepted if and only if each of its functions has a good plan, and the sweep finds the fullest ones.
pub fn judgement_stands() -> usize
    ensures judged { JudgementStands }
    ensures swept { SweepStands }
    ensures suffice { TakesSuffice }
    ensures one { OneFullest }
    ensures starts { StartsStand }
    ensures within { TakesWithin result }
{
    135_168
}

/// The takes of the program that answers six times seven, among other judgements.
pub fn samples_stand() -> usize
    ensures { Samples result }
{
    4
}
