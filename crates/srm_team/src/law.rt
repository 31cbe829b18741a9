//! The rule of the history of lists, which exists in the proofs alone.
use crate::batch::Batch;
use logbook::{Gain, Plain, Play, Rule};

/// The rule: the one word that threads share is the length of the history.
pub struct Law;

impl<W, T> Rule<Batch<W, T>, u64> for Law {
    ghost use Rattle.std.specs.Prelude.{[]};
    ghost use base.Fml.{ftrue};
    ghost use Rattle.srm_team.specs.Rules.{IsKept};

    ghost holds = { λ cells log. IsKept cells log };

    ghost first = { [] };

    ghost hinted = { λ n log. Unit {0} };

    ghost shows = { λ log. [] };

    ghost keeps = { λ names log. ftrue };

    ghost moves = { λ ask before after answer. Unit {0} };
}

/// What a caller gains by a step: nothing.
pub struct NoGain;

impl<W, T> Gain<Batch<W, T>, u64> for NoGain {
    ghost use base.Fml.{ftrue};

    ghost after = { λ names about answer. ftrue };
}

/// The step that adds a list.
pub struct Add;

impl<W, T> Play<Batch<W, T>, u64> for Add {
    ghost use Rattle.srm_team.specs.Rules.{Adds};

    ghost then = { Adds };
}

impl<W, T> Plain<Batch<W, T>, Batch<W, T>, u64> for Add {
    ghost use Rattle.std.specs.Prelude.{None};

    ghost ask = { λ batch. batch };

    ghost state = { λ batch. None };
}
