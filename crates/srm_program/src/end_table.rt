//! Tables that are made at the end of a run.
ghost use Rattle.std.specs.Prelude.{◌≡◌, ℕ, List, IfOk};
ghost use Rattle.srm_member.specs.declared.exit.Exit.{Exit as AnExit};
ghost use Rattle.srm_member.specs.declared.row.Row.{Row as OneRow};
ghost use Rattle.srm_options.specs.declared.options.Show.{Show};
ghost use Rattle.srm_program.specs.EndTables.{IsKeptOf};
ghost use Rattle.srm_program.specs.Reports.{IsWhole, table_shown};

use srm_interfaces::watch::MemberWatch;
use srm_ledger::totals::Totals;
use srm_report::fault::ReportFault;
use srm_scenario::session::Session;
use std::alloc::Global;

/// A table that is made at the end of a run, of what a watch keeps of each member's rows, a `K`, and of the totals.
pub(crate) trait EndTable<K>: MemberWatch<K> {
    // Which table it is.
    ghost table: { Show };

    ghost is_whole: { IsWhole table };

    /// The table of a run that left these totals, and of whose rows this is kept of each member.
    ///
    /// # Errors
    /// `NoMemory`.
    fn text(
        &self,
        alloc: Global,
        session: Session,
        kept: &[K],
        totals: &Totals,
    ) -> Result<Vec<u8>, ReportFault>
        requires { (seed : ℕ) × (rows : List OneRow) × (exits : List AnExit)
            × IsKeptOf (Self.keeps self.now) session seed kept.now totals.now rows exits }
        ensures { (seed : ℕ) (rows : List OneRow) (exits : List AnExit)
            → IsKeptOf (Self.keeps self.now) session.entry seed kept.now totals.now rows exits
            → IfOk result (λ text. text.items
            ≡ table_shown table session.entry.scenario.now rows totals.now) };
}
