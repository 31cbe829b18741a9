//! Finite maps from names.
ghost use Rattle.std.specs.Prelude.{◌≡◌, [], OnErr, OnOk, IfOk, map};
ghost use Rattle.std.specs.FinMap.Entries.{put, find};
ghost use Rattle.srm_net.specs.Names.{name_cmp};
ghost use Rattle.srm_member.specs.React.{without};

use srm_net::packet::Name;
use srm_net::sequence::Sequence;
use std::alloc::{AllocError, Global};
use std::cmp::Ordering;
use std::collections::BTreeMap;
use std::marker::Model;

/// A finite map from names, which contracts compare entry by entry, the names rising.
///
/// The first entry stands apart: mostly it is the only one, and a tree asks for memory for 15 at once.
#[derive(Debug, Drop)]
pub struct Named<V> {
    first: Option<(Name, V)>,
    others: BTreeMap<Name, V>,
}

impl<V> Model for Named<V> {
    ghost use Rattle.std.specs.Prelude.{List, [], ◌++◌, ◌≡◌, None};
    ghost use Rattle.std.specs.Option.{option_to_list};
    ghost use Rattle.srm_net.specs.declared.packet.Name.{Name as Key};
    ghost use Rattle.srm_member.specs.Pending.{RisesByName};

    ghost Value = { List (Key × V) };

    ghost view = { λ t. option_to_list t.first ++ t.others.entries };

    ghost invariant = { λ t. RisesByName (option_to_list t.first ++ t.others.entries) × (t.first ≡ None → t.others.entries ≡ []) };
}

impl<V: Copy> Named<V> {
    /// The map with no entry. It does not allocate.
    pub fn new(alloc: Global) -> Self
        ensures { result ≡ [] }
    {
        Named {
            first: None,
            others: BTreeMap::new(alloc),
        }
    }

    /// The value of a name, if it has one.
    pub fn get(&self, name: Name) -> Option<V>
        ensures { result ≡ find name_cmp name self.now }
    {
        let Some((first, value)) = self.first else {
            return None;
        };
        if name == first {
            return Some(value);
        }
        self.others.get(&name).copied()
    }

    /// Gives a name this value.
    ///
    /// # Errors
    /// [`AllocError`]: the map is then as it was.
    pub fn put(&mut self, name: Name, value: V) -> Result<(), AllocError>
        ensures ok { OnOk result (self.new ≡ put name_cmp name value self.old) }
        ensures err { OnErr result (self.new ≡ self.old) }
    {
        let Some((first, before)) = self.first else {
            self.first = Some((name, value));
            return Ok(());
        };
        match name.cmp(&first) {
            Ordering::Less => {
                self.others.insert(first, before)?;
                self.first = Some((name, value));
            }
            Ordering::Equal => self.first = Some((first, value)),
            Ordering::Greater => {
                self.others.insert(name, value)?;
            }
        }
        Ok(())
    }

    /// Takes a name's entry out, and gives its value.
    pub fn take(&mut self, name: Name) -> Option<V>
        ensures value { result ≡ find name_cmp name self.old }
        ensures rest { self.new ≡ without name self.old }
    {
        let Some((first, value)) = self.first else {
            return None;
        };
        if name == first {
            self.first = self.others.pop_first();
            return Some(value);
        }
        self.others.remove(&name)
    }

    /// The names, rising.
    ///
    /// # Errors
    /// [`AllocError`].
    pub fn names(&self, alloc: Global) -> Result<Sequence<Name>, AllocError>
        ensures { IfOk result (λ ns. ns ≡ map (λ e. e.0) self.now) }
    {
        let mut names: Vec<Name> = self.others.keys().copied().collect(alloc)?;
        if let Some((first, _)) = self.first {
            names.insert(0, first)?;
        }
        Ok(Sequence::from_vec(names))
    }
}
