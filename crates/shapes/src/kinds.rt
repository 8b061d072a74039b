// Kinds by themselves, in the stack of a shape, and in its variables.
ghost use Rattle.std.specs.Prelude.{◌≡◌, ℕ, ◌≤◌, [], ◌∷◌, reverse, not, length, MatchResult};
ghost use Rattle.bytecode.specs.declared.refusal.CodeFault.TheVariants.{TooFew as TooFewFault};
ghost use Rattle.plan.specs.Programs.{Known, AllKnown};
ghost use Rattle.plan.specs.Effects.{room, replace as replace_of, doubled, swapped, compared, returned};
ghost use Rattle.plan.specs.Shapes.{eq_kinds, meet, meet_kind};
ghost use Rattle.shapes.specs.Acts.{one_or_none, told_at};

use bytecode::kind::Kind;
use bytecode::refusal::CodeFault;
use std::marker::Model;

/// A stack of at most 32 kinds; a contract sees the list of them, the top first.
// The array is that of a record of the table, from which it is copied and to which it goes: so a count and unused entries stay.
// It takes any kinds. That no entry in use is Unknown is therefore no invariant: the clause `known` of each method that changes it says that it stays
// so, where what is put there is known.
#[derive(Clone, Copy)]
pub struct Kinds {
    pub count: usize,
    // the bottom first; Unknown where unused
    pub entries: [Kind; 32],
}

impl Model for Kinds {
    ghost use Rattle.std.specs.Prelude.{List, length};
    ghost use Rattle.bytecode.specs.declared.kind.Kind.{Kind};
    ghost use Rattle.shapes.specs.Stacks.{stack_of, entries_of, Stacked};
    ghost use Rattle.shapes.specs.Entries.{count_back, entries_back};

    ghost Value = { List Kind };

    ghost view = { λ s. stack_of s.count s.entries };

    ghost invariant = { λ s. Stacked s.count s.entries };

    ghost inverse = { λ ks. record { count = length ks; entries = entries_of ks } };

    ghost inverse_ok = { λ s h i. record { count = count_back s.count s.entries h i; entries = entries_back s.count s.entries h i } };
}

impl Kinds {
    /// Kinds in order, the last on top.
    #[tactic(auto, using(crate::proofs::Stacks::copied))]
    pub fn of(kinds: &[Kind]) -> Kinds
        requires { length kinds.now ≤ 32 }
        ensures { result ≡ reverse kinds.now }
    {
        let mut entries = [Kind::Unknown; 32];
        entries[..kinds.len()].copy_from_slice(kinds);
        Kinds {
            count: kinds.len(),
            entries,
        }
    }

    pub fn none() -> Kinds
        ensures { result ≡ [] }
    {
        Kinds::of(&[])
    }

    pub fn one(kind: Kind) -> Kinds
        ensures { result ≡ kind ∷ [] }
    {
        Kinds::of(&[kind])
    }

    pub fn two(under: Kind, top: Kind) -> Kinds
        ensures { result ≡ top ∷ under ∷ [] }
    {
        Kinds::of(&[under, top])
    }

    // The kinds in order, the last on top.
    #[tactic(auto, using(crate::proofs::Stacks::stack_taken))]
    pub(crate) fn as_slice(&self) -> &[Kind]
        ensures kinds { self.now ≡ reverse result.now }
        ensures few { length result.now ≤ 32 }
    {
        &self.entries[..self.count]
    }

    // Puts a kind on top.
    #[tactic(auto, using(crate::proofs::Acting::push_fine, crate::proofs::Stacks::stacked_pushed, crate::proofs::Knowing::known_pushed))]
    pub(crate) fn push(&mut self, kind: Kind) -> Result<(), CodeFault>
        ensures met { (f p : ℕ) → room f p (kind ∷ self.old) ≡ told_at f p (λ _. self.new) result }
        ensures known { Known kind → AllKnown self.old → AllKnown self.new }
    {
        if self.count == 32 {
            return Err(CodeFault::TooMany);
        }
        self.entries[self.count] = kind;
        self.count += 1;
        Ok(())
    }

    // Takes the top.
    #[tactic(auto, using(crate::proofs::Stacks::popped, crate::proofs::Knowing::known_popped))]
    pub(crate) fn pop(&mut self) -> Result<Kind, CodeFault>
        ensures met { MatchResult result (λ k. self.old ≡ k ∷ self.new) (λ e. (self.old ≡ []) × (e ≡ TooFewFault)) }
        ensures known { AllKnown self.old → AllKnown self.new }
    {
        if self.count == 0 {
            return Err(CodeFault::TooFew);
        }
        let top = self.entries[self.count - 1];
        self.count -= 1;
        self.entries[self.count] = Kind::Unknown;
        Ok(top)
    }

    // Takes these kinds, which lie on top, and leaves one or none.
    #[tactic(auto, using(crate::proofs::Acting::replacing))]
    pub(crate) fn replace(&mut self, taken: &Kinds, left: Option<Kind>) -> Result<(), CodeFault>
        ensures met { (f p : ℕ) → replace_of f p taken.now (one_or_none left) self.old ≡ told_at f p (λ _. self.new) result }
        ensures known { AllKnown (one_or_none left) → AllKnown self.old → AllKnown self.new }
    {
        if self.count < taken.count {
            return Err(CodeFault::TooFew);
        }
        if !self.as_slice().ends_with(taken.as_slice()) {
            return Err(CodeFault::WrongKind);
        }
        let below = self.count - taken.count;
        self.entries[below..self.count].fill(Kind::Unknown);
        self.count = below;
        match left {
            Some(kind) => self.push(kind),
            None => Ok(()),
        }
    }

    // Puts the top on top again.
    #[tactic(auto, using(crate::proofs::Acting::doubled_top, crate::proofs::Knowing::known_top))]
    pub(crate) fn dup(&mut self) -> Result<(), CodeFault>
        ensures met { (f p : ℕ) → doubled f p self.old ≡ told_at f p (λ _. self.new) result }
        ensures known { AllKnown self.old → AllKnown self.new }
    {
        if self.count == 0 {
            return Err(CodeFault::TooFew);
        }
        self.push(self.entries[self.count - 1])
    }

    // Exchanges the two uppermost.
    #[tactic(auto, using(crate::proofs::Acting::swap_fine, crate::proofs::Stacks::stacked_swapped, crate::proofs::Knowing::known_swapped))]
    pub(crate) fn swap(&mut self) -> Result<(), CodeFault>
        ensures met { (f p : ℕ) → swapped f p self.old ≡ told_at f p (λ _. self.new) result }
        ensures known { AllKnown self.old → AllKnown self.new }
    {
        if self.count < 2 {
            return Err(CodeFault::TooFew);
        }
        self.entries.swap(self.count - 1, self.count - 2);
        Ok(())
    }

    // Takes two of one kind.
    pub(crate) fn take_alike(&mut self) -> Result<(), CodeFault>
        ensures met { (f p : ℕ) → compared f p self.old ≡ told_at f p (λ _. self.new) result }
        ensures known { AllKnown self.old → AllKnown self.new }
    {
        let top = self.pop()?;
        let under = self.pop()?;
        if top != under {
            return Err(CodeFault::WrongKind);
        }
        Ok(())
    }

    // Takes the only one, of this kind.
    pub(crate) fn give(&mut self, kind: Kind) -> Result<(), CodeFault>
        ensures met { (f p : ℕ) → returned f p kind self.old ≡ told_at f p (λ _. self.new) result }
        ensures known { AllKnown self.old → AllKnown self.new }
    {
        if self.count != 1 {
            return Err(CodeFault::Return);
        }
        if self.pop()? != kind {
            return Err(CodeFault::WrongKind);
        }
        Ok(())
    }
}

// Kinds that differ become none.
#[tactic(auto, using(plan::proofs::Reaching::kind_told))]
fn meet_kind(a: Kind, b: Kind) -> Kind
    ensures { result ≡ meet_kind a b }
{
    if a == b { a } else { Kind::Unknown }
}

// Variables that differ become none; answers whether any changed.
// The other list is indexed: of what is written through a zip of `iter_mut` no proof knows anything.
#[tactic(auto, using(crate::proofs::Narrowing::narrowing))]
#[inline(never)]
pub(crate) fn narrow(old: &mut [Kind; 32], new: &[Kind; 32]) -> bool
    ensures met { old.new ≡ meet old.old new.now }
    ensures changed { not result ≡ eq_kinds old.new old.old }
{
    let before = *old;
    for (i, kind) in old.iter_mut().enumerate() {
        *kind = meet_kind(*kind, new[i]);
    }
    *old != before
}
