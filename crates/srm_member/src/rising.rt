//! Finite maps from names, in one vector.
ghost use Rattle.std.specs.Prelude.{◌≡◌, ◌≤◌, ◌↔◌, [], ◌∷◌, ◌++◌, OnErr, OnOk, IfOk, IsTrue, length, insert};
ghost use Rattle.std.specs.FinMap.Entries.{put, find};
ghost use Rattle.srm_net.specs.Names.{name_cmp};
ghost use Rattle.srm_member.specs.Places.{is_before, is_at, IsPlaceOf};

use srm_net::packet::Name;
use srm_net::sequence::Sequence;
use std::alloc::{AllocError, Global};
use std::marker::Model;

/// A finite map from names, in one vector that rises by name, from which none is taken out. Contracts see its entries.
///
/// Names mostly come in this order, and then go to its end without a search. Another is put between the entries, of which those
/// behind it move by one: at most 16 bytes for each of at most 65,535 names of a run.
#[derive(Debug, Drop)]
pub struct Rising<V> {
    entries: Vec<(Name, V)>,
    // where the name stood that was given another value last: mostly the next one is the same
    last: usize,
}

impl<V> Model for Rising<V> {
    ghost use Rattle.std.specs.Prelude.{List};
    ghost use Rattle.srm_net.specs.declared.packet.Name.{Name as Key};
    ghost use Rattle.srm_member.specs.Pending.{RisesByName};

    ghost Value = { List (Key × V) };

    ghost view = { λ h. h.entries.items };

    ghost invariant = { λ h. RisesByName h.entries.items };
}

impl<V: Copy> Rising<V> {
    /// No name. It does not allocate.
    pub fn new(alloc: Global) -> Self
        ensures { result ≡ [] }
    {
        Rising {
            entries: Vec::new(alloc),
            last: 0,
        }
    }

    // Whether the first so many entries, and no others, stand before the place of a name.
    fn is_between(&self, place: usize, name: Name) -> bool
        requires { place ≤ length self.now }
        ensures { IsTrue result ↔ IsPlaceOf name_cmp name self.now place }
    {
        let (before, behind) = self.entries.as_slice().split_at(place);
        let follows = match before.last() {
            Some(entry) => entry.0 < name,
            None => true,
        };
        let leads = match behind.first() {
            Some(entry) => !(entry.0 < name),
            None => true,
        };
        follows && leads
    }

    // Whether a name comes behind all entries.
    fn is_behind(&self, name: Name) -> bool
        ensures { IsTrue result ↔ IsPlaceOf name_cmp name self.now (length self.now) }
    {
        self.is_between(self.entries.len(), name)
    }

    // How many entries stand before the place of a name.
    //
    // Where the map has one page without a gap, that is the name's number, and with gaps a name behind all is asked for
    // most: it takes no search, which would read entries that the processor's cache no longer has.
    fn place(&self, name: Name) -> usize
        ensures { IsPlaceOf name_cmp name self.now result }
    {
        if self.is_at(self.last, name) {
            return self.last;
        }
        if self.is_behind(name) {
            return self.entries.len();
        }
        let guess = (name.number as usize).min(self.entries.len().saturating_sub(1));
        if self.is_between(guess, name) {
            return guess;
        }
        self.entries.as_slice().partition_point(
            |entry: &(Name, V)| -> bool
                ensures { result ≡ is_before name_cmp name entry.now }
            { entry.0 < name },
        )
    }

    // Whether the entry at a place is that of a name.
    fn is_at(&self, place: usize, name: Name) -> bool
        ensures { result ≡ is_at name_cmp name self.now place }
    {
        match self.entries.as_slice().get(place) {
            Some(entry) => entry.0 == name,
            None => false,
        }
    }

    /// The value of a name, if it has one.
    pub fn get(&self, name: Name) -> Option<V>
        ensures { result ≡ find name_cmp name self.now }
    {
        let place = self.place(name);
        if self.is_at(place, name) {
            Some(self.entries[place].1)
        } else {
            None
        }
    }

    /// Gives a name this value.
    ///
    /// # Errors
    /// [`AllocError`]: all is then as it was.
    pub fn put(&mut self, name: Name, value: V) -> Result<(), AllocError>
        ensures ok { OnOk result (self.new ≡ put name_cmp name value self.old) }
        ensures err { OnErr result (self.new ≡ self.old) }
    {
        self.replace(name, value)?;
        Ok(())
    }

    /// Gives a name this value, and tells the one that it had.
    ///
    /// # Errors
    /// [`AllocError`]: all is then as it was.
    pub fn replace(&mut self, name: Name, value: V) -> Result<Option<V>, AllocError>
        ensures before { IfOk result (λ v. v ≡ find name_cmp name self.old) }
        ensures ok { OnOk result (self.new ≡ put name_cmp name value self.old) }
        ensures err { OnErr result (self.new ≡ self.old) }
    {
        // most names come behind all: no place is looked for, and no entry moves
        if self.is_behind(name) {
            push(&mut self.entries, (name, value))?;
            return Ok(None);
        }
        self.replace_by_place(name, value)
    }

    // The same by the name's place, whichever it is.
    fn replace_by_place(&mut self, name: Name, value: V) -> Result<Option<V>, AllocError>
        ensures before { IfOk result (λ v. v ≡ find name_cmp name self.old) }
        ensures ok { OnOk result (self.new ≡ put name_cmp name value self.old) }
        ensures err { OnErr result (self.new ≡ self.old) }
    {
        let place = self.place(name);
        if self.is_at(place, name) {
            let before = self.entries[place].1;
            self.entries[place] = (name, value);
            self.last = place;
            return Ok(Some(before));
        }
        insert(&mut self.entries, place, (name, value))?;
        Ok(None)
    }

    /// The entries, the names rising.
    ///
    /// # Errors
    /// [`AllocError`].
    pub fn entries(&self, alloc: Global) -> Result<Sequence<(Name, V)>, AllocError>
        ensures { IfOk result (λ es. es ≡ self.now) }
    {
        let entries: Vec<(Name, V)> = self.entries.iter().copied().collect(alloc)?;
        Ok(Sequence::from_vec(entries))
    }
}

// Makes room in a full vector: for one entry at first, then for four more, and from 16 on for as many again. By itself a `Vec` would
// make it for four at first and twice as many each time: in large sessions with few names much of that would stand empty.
#[inline(never)]
fn widen<V>(entries: &mut Vec<(Name, V)>) -> Result<(), AllocError>
    ensures { entries.new.items ≡ entries.old.items }
{
    let len = entries.len();
    let more = if len == 0 {
        1
    } else if len < 16 {
        4 - len % 4
    } else {
        len
    };
    entries.reserve_exact(more)
}

// Puts an entry behind the others.
#[inline(always)]
fn push<V: Copy>(entries: &mut Vec<(Name, V)>, entry: (Name, V)) -> Result<(), AllocError>
    ensures ok { OnOk result (entries.new.items ≡ entries.old.items ++ entry ∷ []) }
    ensures err { OnErr result (entries.new.items ≡ entries.old.items) }
{
    if entries.len() == entries.capacity() {
        widen(entries)?;
    }
    entries.push(entry)?;
    Ok(())
}

// Puts an entry at a place. Those from there on move by one, together: `Vec::insert` moves them one after the other.
fn insert<V: Copy>(
    entries: &mut Vec<(Name, V)>,
    place: usize,
    entry: (Name, V),
) -> Result<(), AllocError>
    requires { place ≤ length entries.old.items }
    ensures ok { OnOk result (entries.new.items ≡ insert entries.old.items place entry) }
    ensures err { OnErr result (entries.new.items ≡ entries.old.items) }
{
    push(entries, entry)?;
    entries.as_mut_slice()[place..].rotate_right(1);
    Ok(())
}
