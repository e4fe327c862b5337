ghost use Rattle.replica_table.specs.Order.{NamesKeepTheirOrder};

/// Where copies go, the names of which one is left keep their order.
pub fn names_keep_their_order()
    ensures { NamesKeepTheirOrder }
{}
