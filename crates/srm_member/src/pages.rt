//! How far a member follows each page.
ghost use Rattle.std.specs.Prelude.{◌≡◌, [], OnErr, OnOk, IfOk, IfSome, map};
ghost use Rattle.std.specs.FinMap.Entries.{put, find};
ghost use Rattle.srm_net.specs.Names.{page_cmp};
ghost use Rattle.srm_member.specs.Fit.{heard_of};
ghost use Rattle.srm_member.specs.Places.{is_before, is_at, IsPlaceOf};

use crate::progress::Progress;
use smallvec::SmallVec;
use srm_net::packet::{Heard, PageId};
use srm_net::sequence::Sequence;
use std::alloc::{AllocError, Global};
use std::marker::Model;

/// How far a member follows each page, in one vector that rises by page. Contracts compare it entry by entry.
///
/// Most members follow one page, which stands in the vector itself.
#[derive(Debug, Drop)]
pub struct Pages {
    entries: SmallVec<(PageId, Progress), 1>,
}

impl Model for Pages {
    ghost use Rattle.std.specs.Prelude.{List, T};
    ghost use Rattle.std.specs.FinMap.Entries.{is_sorted};
    ghost use Rattle.srm_net.specs.declared.packet.PageId.{PageId as Key};
    ghost use Rattle.srm_net.specs.Names.{page_cmp};
    ghost use Rattle.srm_member.specs.Record.{Progress as Seen};

    ghost Value = { List (Key × Seen) };

    ghost view = { λ t. t.entries.items };

    ghost invariant = { λ t. T (is_sorted page_cmp t.entries.items) };
}

impl Pages {
    /// No page. It does not allocate.
    pub fn new(alloc: Global) -> Self
        ensures { result ≡ [] }
    {
        Pages {
            entries: SmallVec::new(alloc),
        }
    }

    // How many entries stand before the place of a page.
    fn place(&self, page: PageId) -> usize
        ensures { IsPlaceOf page_cmp page self.now result }
    {
        self.entries.as_slice().partition_point(
            |entry: &(PageId, Progress)| -> bool
                ensures { result ≡ is_before page_cmp page entry.now }
            { entry.0 < page },
        )
    }

    // Whether the entry at a place is that of a page.
    fn is_at(&self, place: usize, page: PageId) -> bool
        ensures { result ≡ is_at page_cmp page self.now place }
    {
        match self.entries.as_slice().get(place) {
            Some(entry) => entry.0 == page,
            None => false,
        }
    }

    /// How far the member follows a page, if it does.
    #[inline(always)]
    pub fn get(&self, page: PageId) -> Option<Progress>
        ensures value { result ≡ find page_cmp page self.now }
        ensures kept { IfSome result (λ s. put page_cmp page s self.now ≡ self.now) }
    {
        // the first page is mostly the one, and takes no search, nor a call
        if self.is_at(0, page) {
            return Some(self.entries[0].1);
        }
        self.get_by_place(page)
    }

    // The same by a search, whichever page it is.
    #[inline(never)]
    fn get_by_place(&self, page: PageId) -> Option<Progress>
        ensures value { result ≡ find page_cmp page self.now }
        ensures kept { IfSome result (λ s. put page_cmp page s self.now ≡ self.now) }
    {
        let place = self.place(page);
        if self.is_at(place, page) {
            Some(self.entries[place].1)
        } else {
            None
        }
    }

    /// Follows a page this far. After an error all is as it was.
    #[inline(always)]
    pub fn put(&mut self, page: PageId, progress: Progress) -> Result<(), AllocError>
        ensures ok { OnOk result (self.new ≡ put page_cmp page progress self.old) }
        ensures err { OnErr result (self.new ≡ self.old) }
    {
        if self.is_at(0, page) {
            self.entries[0] = (page, progress);
            return Ok(());
        }
        self.put_by_place(page, progress)
    }

    // The same by a search, whichever page it is.
    #[inline(never)]
    fn put_by_place(&mut self, page: PageId, progress: Progress) -> Result<(), AllocError>
        ensures ok { OnOk result (self.new ≡ put page_cmp page progress self.old) }
        ensures err { OnErr result (self.new ≡ self.old) }
    {
        let place = self.place(page);
        if self.is_at(place, page) {
            self.entries[place] = (page, progress);
        } else {
            self.entries.insert(place, (page, progress))?;
        }
        Ok(())
    }

    /// The highest number heard of each page, the pages rising.
    pub fn heard(&self, alloc: Global) -> Result<Sequence<Heard>, AllocError>
        ensures { IfOk result (λ hs. hs ≡ map (λ e. heard_of e.0 e.1) self.now) }
    {
        let mut heard = Sequence::new(alloc);
        for (page, progress) in self.entries.iter() {
            heard.push(heard_of(*page, *progress))?;
        }
        Ok(heard)
    }
}

// The entry of a session message for a page.
fn heard_of(page: PageId, progress: Progress) -> Heard
    ensures { result ≡ heard_of page progress }
{
    Heard {
        source: page.source,
        page: page.page,
        highest: progress.next().saturating_sub(1) as u32,
    }
}
