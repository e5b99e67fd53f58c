// An order of records in lent words: a table of one word for each place of the order, the number of the record that comes there.
// A number is put in where a search ended; those after it move up.
#![tactic(auto)]

ghost use Rattle.std.specs.Prelude.{◌≡◌, ◌-◌};
ghost use Rattle.lent_order.specs.Order.{order_at, moved_up, inserted};

use lent_tables::Table;

// The record that comes j-th.
// Past the table's end it is 0.
pub fn order_at(t: Table, xs: &[u32], j: u32) -> u32
    ensures { result ≡ order_at t xs.now j }
{
    t.field(xs, j as usize, 0)
}

// The places from p to n move up by one, from the last one down.
// Where a record is one word and table and slice have them all, they are moved at once.
fn move_up(t: Table, xs: &mut [u32], n: u32, p: u32)
    ensures { xs.new ≡ moved_up t p (n - p) xs.old }
{
    let from = t.base as usize + p as usize;
    let to = t.base as usize + n as usize;
    if t.width == 1 && p < n && n < t.count && to < xs.len() {
        xs.copy_within(from..to, from + 1);
        return;
    }
    for k in (p..n).rev() {
        let x = t.field(xs, k as usize, 0);
        t.put_field(xs, k as usize + 1, 0, x);
    }
}

// Record r comes p-th of n + 1: those from p on move up by one.
pub fn insert(t: Table, xs: &mut [u32], n: u32, p: u32, r: u32)
    ensures { xs.new ≡ inserted t p r n xs.old }
{
    move_up(t, xs, n, p);
    t.put_field(xs, p as usize, 0, r);
}
