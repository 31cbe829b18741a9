//! The tables that are made at the end of a run.
use crate::asked::Asked;
use crate::at_end::write_windows;
use crate::end_table::EndTable;
use crate::fault::LabFault;
use crate::watched_table::WatchedTable;
use srm_interfaces::watch_crew::WatchCrew;
use srm_ledger::totals::Totals;
use srm_member::participant::Participant;
use srm_report::fault::ReportFault;
use srm_report::links::keep_nothing::{KeepNothing, Nothing};
use srm_report::links::links_text;
use srm_report::losses::find_losses::FindLosses;
use srm_report::losses::losses_kept;
use srm_report::losses::member_losses::MemberLosses;
use srm_report::members::count_rows::CountRows;
use srm_report::members::member_count::MemberCount;
use srm_report::members::members_kept;
use srm_report::operations::find_operations::FindOperations;
use srm_report::operations::member_operations::MemberOperations;
use srm_report::operations::operations_kept;
use srm_report::outlet::Outlet;
use srm_report::scopes::find_scopes::FindScopes;
use srm_report::scopes::member_scopes::MemberScopes;
use srm_report::scopes::scopes_kept;
use srm_scenario::session::Session;
use std::alloc::Global;
use std::marker::Copy;

/// A table that is made at the end of a run in windows is written then.
impl<K: Drop, T: EndTable<K> + Copy> WatchedTable<K> for T {
    ghost show = { T.table };

    fn write<M: Participant, C: WatchCrew<M, K, T>, O: Outlet>(
        self,
        alloc: Global,
        asked: Asked<M>,
        crew: &mut C,
        outlet: &mut O,
    ) -> Result<(), LabFault> {
        write_windows(alloc, asked, crew, self, outlet)
    }
}

/// The table of members, of the counts of each.
impl EndTable<MemberCount> for CountRows {
    ghost use Rattle.srm_options.specs.declared.options.Show.TheVariants.{Members};

    ghost table = { Members };

    ghost is_whole = { tt };

    fn text(
        &self,
        alloc: Global,
        session: Session,
        kept: &[MemberCount],
        _totals: &Totals,
    ) -> Result<Vec<u8>, ReportFault> {
        members_kept(alloc, session.scenario, kept)
    }
}

/// The table of losses, of what became of those of each member.
impl EndTable<MemberLosses> for FindLosses {
    ghost use Rattle.srm_options.specs.declared.options.Show.TheVariants.{Losses};

    ghost table = { Losses };

    ghost is_whole = { tt };

    fn text(
        &self,
        alloc: Global,
        session: Session,
        kept: &[MemberLosses],
        _totals: &Totals,
    ) -> Result<Vec<u8>, ReportFault> {
        // By its contract, every scenario is accepted: that makes the rows of its run orderly.
        let _ = session.scenario.until();
        losses_kept(alloc, session.net, kept)
    }
}

/// The table of operations, of what the rows of each member tell of them.
impl EndTable<MemberOperations> for FindOperations {
    ghost use Rattle.srm_options.specs.declared.options.Show.TheVariants.{Operations};

    ghost table = { Operations };

    ghost is_whole = { tt };

    fn text(
        &self,
        alloc: Global,
        session: Session,
        kept: &[MemberOperations],
        _totals: &Totals,
    ) -> Result<Vec<u8>, ReportFault> {
        // By its contract, every scenario is accepted: that makes the rows of its run orderly.
        let _ = session.scenario.until();
        operations_kept(alloc, session.net, kept)
    }
}

/// The table of scopes, of what each member sent and heard.
impl EndTable<MemberScopes> for FindScopes {
    ghost use Rattle.srm_options.specs.declared.options.Show.TheVariants.{Scopes};

    ghost table = { Scopes };

    ghost is_whole = { tt };

    fn text(
        &self,
        alloc: Global,
        session: Session,
        kept: &[MemberScopes],
        _totals: &Totals,
    ) -> Result<Vec<u8>, ReportFault> {
        // By its contract, every scenario is accepted: that makes the rows of its run orderly.
        let _ = session.scenario.until();
        scopes_kept(alloc, kept)
    }
}

/// The table of links, of the totals alone.
impl EndTable<Nothing> for KeepNothing {
    ghost use Rattle.srm_options.specs.declared.options.Show.TheVariants.{Links};

    ghost table = { Links };

    ghost is_whole = { tt };

    fn text(
        &self,
        alloc: Global,
        _session: Session,
        _kept: &[Nothing],
        totals: &Totals,
    ) -> Result<Vec<u8>, ReportFault> {
        links_text(alloc, totals)
    }
}
