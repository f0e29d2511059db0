// The logger's state, over any alarm.
ghost use Rattle.std.specs.Prelude.{◌≡◌, true, length};
ghost use Rattle.logger.specs.Within.{table_fits};

use slots::moment::Moment;
use table::Table;

// The moment moves with each accepted sample; the table holds the jobs; the alarm below is the logger's tool.
// No model: its value could hold the alarm, not what that means, so each clause would apply the meaning all the same.
#[derive(Drop)]
pub struct Logger<A> {
    pub(crate) number: u16,
    pub(crate) moment: Moment,
    pub(crate) table: Table,
    pub(crate) alarm: A,
    ghost size: { length table ≡ 32 },
    ghost limits: { table_fits table ≡ true },
}
