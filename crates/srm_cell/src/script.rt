//! The rest of a member's script.
ghost use Rattle.std.specs.Prelude.{◌≡◌, List, [], ◌∷◌, MatchOption};

use srm_scenario::mark::Mark;
use std::marker::Model;

/// The marks of a member's script that are still to come, in order. Contracts see them as a list.
#[derive(Drop)]
pub struct Script {
    marks: Vec<Mark>,
    next: usize,
}

impl Model for Script {
    ghost use Rattle.std.specs.Prelude.{List, drop, length, ◌≤◌};
    ghost use Rattle.srm_scenario.specs.declared.mark.Mark.{Mark};

    ghost Value = { List Mark };

    ghost view = { λ s. drop s.next s.marks.items };

    ghost invariant = { λ s. s.next ≤ length s.marks.items };
}

impl Script {
    /// These marks, all of them to come. It does not allocate.
    pub fn new(marks: Vec<Mark>) -> Self
        ensures { result ≡ marks.items }
    {
        Script { marks, next: 0 }
    }

    /// The first mark.
    pub fn first(&self) -> Option<Mark>
        ensures { MatchOption result (self.now ≡ []) (λ k. (rest : List Mark) × (self.now ≡ k ∷ rest)) }
    {
        self.marks.get(self.next).copied()
    }

    /// Takes the first mark out. With the last one the room for marks is let go.
    pub fn pop_first(&mut self) -> Option<Mark>
        ensures { MatchOption result ((self.old ≡ []) × (self.new ≡ [])) (λ k. self.old ≡ k ∷ self.new) }
    {
        let mark = self.first()?;
        self.next += 1;
        if self.next == self.marks.len() {
            *self = Script::new(Vec::new(*self.marks.allocator()));
        }
        Some(mark)
    }
}
