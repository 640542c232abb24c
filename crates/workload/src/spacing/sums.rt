ghost use Rattle.workload.specs.Sums.{OrderMatters};

/// The same widths in two orders come to two positions.
pub fn order_matters()
    ensures { OrderMatters }
{}
