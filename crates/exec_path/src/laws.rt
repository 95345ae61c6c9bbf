// What follows from the balance of the execution bus. A law is the contract of a function without a body.
ghost use Rattle.exec_path.specs.Laws.{BalancedRowsAreOnePath, BalancedEventsBalanceRows, ListedEventsHaveTheSums, CheckedRowsAreOnePath, OrderIsThePath, RowBalances};

/// Rows that balance with a start and an end are one path.
pub fn balanced_rows_are_one_path()
    ensures { BalancedRowsAreOnePath }
{}

/// Where the execution bus balances, its rows balance with the connector.
pub fn balanced_events_balance_rows()
    ensures { BalancedEventsBalanceRows }
{}

/// The order of a bus's events doesn't matter to its sums.
pub fn listed_events_have_the_sums()
    ensures { ListedEventsHaveTheSums }
{}

/// The first two laws as a checker uses them: from time 1 on, with slots below 2^29 in all.
pub fn checked_rows_are_one_path()
    ensures { CheckedRowsAreOnePath }
{}

/// The order of `order_rows` is the path.
pub fn order_is_the_path()
    ensures { OrderIsThePath }
{}

/// What the laws ask can be met.
pub fn a_row_balances()
    ensures { RowBalances }
{}
