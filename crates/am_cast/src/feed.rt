//! Which log a value belongs to.
ghost use Rattle.atomic_table.specs.Seated.{TableId};
ghost use Rattle.am_cast.specs.Tables.{no_table};

use std::marker::Brand;

pub trait Feed {
    ghost table: { TableId };
}

impl Feed for Brand {
    ghost table = { no_table };
}
