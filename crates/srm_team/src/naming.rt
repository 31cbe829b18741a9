//! The name of a history.
use std::marker::Brand;

/// Which history a team has. Each run picks its own, by [`Brand`].
pub trait Naming {
    ghost use Rattle.logbook.specs.Pages.{Book};

    ghost book: { Book };
}

impl Naming for Brand {
    ghost book = { record { number = 0; log_name = 0; cells_name = 0 } };
}
