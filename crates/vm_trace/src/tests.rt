//! Rows and counts in the order in which they came.

use super::*;
use std::test::Fail;
use vm_field::Fe;

#[test]
fn rows_and_counts_in_order(rt: HostRuntime) -> Result<(), Fail> {
    let mut tables = Tables::new(rt.alloc(), &[2, 0])?;
    assert_eq!(rt; (tables.tables(), tables.height(0)), (2, 0));
    let first = [Fe::ONE, Fe::ZERO];
    let second = [Fe::ZERO, Fe::ONE];
    tables.push_row(0, &first)?;
    tables.push_row(1, &[])?;
    tables.push_row(0, &second)?;
    assert_eq!(rt; (tables.height(0), tables.height(1)), (2, 1));
    assert!(rt; tables.row(0, 1) == Some(second.as_slice()));
    assert!(rt; tables.row(0, 2).is_none() && tables.row(2, 0).is_none());
    let entry = CountEntry {
        place: 12,
        count: 3,
    };
    tables.push_count(CountList::Range, entry)?;
    assert_eq!(rt; tables.counts(CountList::Range), [entry].as_slice());
    assert_eq!(rt; tables.counts(CountList::Xor).len(), 0);
    Ok(())
}
