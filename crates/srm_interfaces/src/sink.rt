//! Who takes the rows of a run as they come.
ghost use Rattle.std.specs.Prelude.{◌≡◌, ◌<◌, ◌+◌, ◌-◌, ◌^◌, ◌++◌, [], ℕ, List, MatchResult};
ghost use Rattle.srm_member.specs.declared.row.Row.{Row as OneRow};
ghost use Rattle.srm_interfaces.specs.declared.sink.Stage.{Stage as AStage};
ghost use Rattle.srm_interfaces.specs.Sinks.{IsOpen, stage_after, stops_in};

use srm_member::row::Row;
use std::alloc::Global;

/// Why a sink took no more than a front of the rows.
#[derive(Clone, Copy, Debug, PartialEq, Eq)]
pub enum SinkFault {
    /// Memory was refused.
    NoMemory,
    /// The device under the sink failed.
    Stopped {
        /// How much it had taken by this sink in all, in the sink's own measure.
        written: u64,
    },
}

/// Where a sink stands.
#[derive(Clone, Copy, Debug, PartialEq, Eq)]
pub enum Stage {
    /// It was asked nothing yet.
    Fresh,
    /// It took all that it was asked to.
    Live,
    /// It refused, and takes no more.
    Refused {
        /// What it answered.
        fault: SinkFault,
    },
}

/// Who takes rows. A contract sees where it stands, how often the device under it failed, and two relations between its values before
/// and after: that in between it took exactly a list of rows; or that it took no more than a front of one, which may end inside a
/// row's text.
pub trait RowSink {
    // Where it stands.
    ghost stage: { Self → AStage };

    // How often the device under it failed.
    ghost failures: { Self → ℕ };

    // Both are over one device.
    ghost same: { Self → Self → Type 0 };

    // Between these two values it took exactly these rows.
    ghost took: { Self → List OneRow → Self → Type 0 };

    // Between these two values it took no more than a front of these rows.
    ghost part: { Self → List OneRow → Self → Type 0 };

    /// Takes these rows, after those that it took before. There may be none.
    ///
    /// # Errors
    /// `Stopped` exactly where the device under the sink failed: its count of failures is then one higher. Else `NoMemory`. The
    /// sink took no more than a front of the rows, stands refused by the fault that it told, and may not be asked again.
    fn rows(&mut self, alloc: Global, rows: Vec<Row>) -> Result<(), SinkFault>
        requires open { IsOpen (stage self.old) }
        requires failures { failures self.old < 2 ^ 64 - 1 }
        ensures same { same self.old self.new }
        ensures stage { stage self.new ≡ stage_after result }
        ensures failures { failures self.new ≡ failures self.old + stops_in result }
        ensures rows { MatchResult result (λ _. took self.old rows.items self.new)
            (λ _. part self.old rows.items self.new) };

    ghost same_self: { (a : Self) → same a a };

    ghost same_more: { (a b c : Self) → same a b → same b c → same a c };

    ghost took_none: { (a : Self) → took a [] a };

    ghost took_more: { (a b c : Self) (xs ys : List OneRow) → took a xs b → took b ys c → took a (xs ++ ys) c };

    ghost part_none: { (a : Self) → part a [] a };

    ghost part_more: { (a b c : Self) (xs ys : List OneRow) → took a xs b → part b ys c → part a (xs ++ ys) c };

    ghost part_longer: { (a b : Self) (xs ys : List OneRow) → part a xs b → part a (xs ++ ys) b };
}
