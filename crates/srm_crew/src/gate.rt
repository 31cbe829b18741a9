//! What a worker passes with each item that it has taken.
ghost use Rattle.srm_crew.specs.Passes.{IsLastTaken};

use crate::pass::Pass;
use std::sync::Wait;

/// What a worker passes with each item that it took: as it is written, before it works on the item.
pub trait Gate {
    /// Called with the index of the item that the pass took last of all. As a crew puts a window's jobs, that is the job's place
    /// among them.
    fn enter<T, R: Wait>(&self, rt: &R, place: usize, pass: &Pass<T>)
        requires { IsLastTaken place pass.now };
}

/// A gate that lets each item pass.
#[derive(Drop)]
pub struct OpenGate;

impl Gate for OpenGate {
    fn enter<T, R: Wait>(&self, _rt: &R, _place: usize, _pass: &Pass<T>) {}
}
