//! Finite maps from losses.
ghost use Rattle.std.specs.Prelude.{◌≡◌, [], OnOk, IfOk};
ghost use Rattle.std.specs.FinMap.Entries.{put, find};
ghost use Rattle.srm_report.specs.Losses.{loss_cmp};

use crate::losses::loss::Loss;
use std::alloc::{AllocError, Global};
use std::collections::BTreeMap;
use std::marker::Model;

/// A finite map from losses, which contracts see as a list of entries, the losses rising.
#[derive(Drop)]
pub(crate) struct ByLoss<V> {
    map: BTreeMap<Loss, V>,
}

impl<V> Model for ByLoss<V> {
    ghost use Rattle.std.specs.Prelude.{List};
    ghost use Rattle.srm_report.specs.declared.losses.loss.Loss.{Loss as Key};

    ghost Value = { List (Key × V) };

    ghost view = { λ l. l.map.entries };
}

impl<V: Copy> ByLoss<V> {
    /// The map with no entry. It does not allocate.
    pub(crate) fn new(alloc: Global) -> Self
        ensures { result ≡ [] }
    {
        ByLoss {
            map: BTreeMap::new(alloc),
        }
    }

    /// The value of a loss, if it has one.
    pub(crate) fn get(&self, loss: Loss) -> Option<V>
        ensures { result ≡ find loss_cmp loss self.now }
    {
        self.map.get(&loss).copied()
    }

    /// Gives a loss this value.
    pub(crate) fn put(&mut self, loss: Loss, value: V) -> Result<(), AllocError>
        ensures { OnOk result (self.new ≡ put loss_cmp loss value self.old) }
    {
        self.map.insert(loss, value)?;
        Ok(())
    }

    /// The entries, the losses rising.
    pub(crate) fn entries(&self, alloc: Global) -> Result<Vec<(Loss, V)>, AllocError>
        ensures { IfOk result (λ es. es.items ≡ self.now) }
    {
        let mut entries = Vec::new(alloc);
        for (loss, value) in &self.map {
            entries.push((*loss, *value))?;
        }
        Ok(entries)
    }
}
