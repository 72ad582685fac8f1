//! For each existential under a new row, the first row that agrees on what it sees.

ghost use Rattle.std.specs.Prelude.{◌≡◌, ◌<◌, [], All, length, replicate, IfOk};
ghost use Rattle.expansion.specs.FirstRows.{IsRowIndex, IsFirstRow, AreFirstRows, no_order};

use crate::new_rows::NewRow;
use crate::orders::Order;
use dq_formula::Formula;
use dq_lits::{Memory, Row};
use std::alloc::Global;
use std::marker::Model;

/// The first rows of each dependency set. They take a place for each, and never a row's bits; a row
/// is found in time for its bits that are seen and the logarithm of the rows, once for each
/// dependency set.
#[derive(Drop)]
pub(crate) struct FirstRows {
    leaders: Vec<usize>,
    orders: Vec<Order>,
}

impl Model for FirstRows {
    ghost use Rattle.expansion.specs.FirstRows.{RowIndex};

    ghost Value = { RowIndex };

    ghost view = { λ i. record { leaders = i.leaders.items; orders = i.orders.items } };
}

impl FirstRows {
    /// No row was looked at yet.
    pub(crate) fn new(alloc: Global, f: &Formula) -> Result<FirstRows, Memory>
        ensures { IfOk result (λ index. IsRowIndex f.now [] index) }
    {
        let leaders = f.set_leaders(alloc)?;
        let orders = empty_orders(alloc, f.existentials().len())?;
        Ok(FirstRows { leaders, orders })
    }

    /// For each existential, the place of the first row that agrees with the new one on what it
    /// sees; the number of rows where none does. Which rows were looked at may grow also where
    /// memory is wanting.
    pub(crate) fn find_all(
        &mut self,
        alloc: Global,
        new: &NewRow,
        rows: &[Row],
    ) -> Result<Vec<usize>, Memory>
        requires whole { All (λ r. length r ≡ length new.now.f.now.universals) rows.now }
        requires index { IsRowIndex new.now.f.now rows.now self.old }
        ensures index { IsRowIndex new.now.f.now rows.now self.new }
        ensures firsts { IfOk result (λ firsts. AreFirstRows new.now.f.now rows.now
            new.now.row.now (length new.now.f.now.existentials) firsts.items) }
    {
        let mut firsts = Vec::new(alloc);
        for place in 0..new.f.existentials().len() {
            let first = self.find_at(new, rows, place, &firsts)?;
            firsts.push(first)?;
        }
        Ok(firsts)
    }

    // The same for one existential, where those before it have theirs.
    fn find_at(
        &mut self,
        new: &NewRow,
        rows: &[Row],
        place: usize,
        firsts: &[usize],
    ) -> Result<usize, Memory>
        requires whole { All (λ r. length r ≡ length new.now.f.now.universals) rows.now }
        requires place { place < length new.now.f.now.existentials }
        requires index { IsRowIndex new.now.f.now rows.now self.old }
        requires firsts { AreFirstRows new.now.f.now rows.now new.now.row.now place firsts.now }
        ensures index { IsRowIndex new.now.f.now rows.now self.new }
        ensures first { IfOk result (λ first.
            IsFirstRow new.now.f.now rows.now new.now.row.now place first) }
    {
        let f = new.f;
        f.every_formula_is_lawful();
        let leader = self.leaders[place];
        if leader < place {
            return Ok(firsts[leader]);
        }
        self.orders[place].find(f, f.existentials()[place], rows, new.row)
    }
}

fn empty_orders(alloc: Global, n: usize) -> Result<Vec<Order>, Memory>
    ensures { IfOk result (λ orders. orders.items ≡ replicate n no_order) }
{
    let mut orders = Vec::new(alloc);
    for _ in 0..n {
        orders.push(Order::new(alloc))?;
    }
    Ok(orders)
}
