//! The order of tuples, and rows of a reserved table, by hand.

use super::*;
use std::cmp::Ordering;
use std::test::Fail;
use vm_field::Fe;

/// Two lists of numbers, and how the first stands to the second.
const ORDER: [(&'static [u32], &'static [u32], Ordering); 6] = [
    (&[], &[], Ordering::Equal),
    (&[], &[0], Ordering::Less),
    (&[2], &[1, 5], Ordering::Greater),
    (&[1], &[1, 0], Ordering::Less),
    (&[0, 9], &[1], Ordering::Less),
    (&[7, 8, 9], &[7, 8, 9], Ordering::Equal),
];

#[test]
fn tuples_in_order(rt: HostRuntime) -> Result<(), Fail> {
    for (left, right, order) in &ORDER {
        assert!(rt; left.len() <= MAX_TUPLE && right.len() <= MAX_TUPLE);
        let (a, b) = (Tuple::of(left), Tuple::of(right));
        assert_eq!(rt; a.cmp(&b), *order);
        assert_eq!(rt; a == b, *order == Ordering::Equal);
        assert_eq!(rt; a.len() as usize, left.len());
        assert_eq!(rt; a.at(1), left.get(1).copied());
    }
    Ok(())
}

#[test]
fn rows_of_a_reserved_table(rt: HostRuntime) -> Result<(), Fail> {
    let ext = Reserved::new(3, 1, 24);
    assert_eq!(rt; (ext.tables(), ext.width(0), ext.slots(0)), (1, 3, 1));
    assert_eq!(rt; ext.first_broken(0, &[Fe::ZERO; 3]), None);
    assert_eq!(rt; ext.first_broken(0, &[Fe::ONE; 3]), Some(0));
    assert_eq!(rt;
        ext.first_broken(0, &[Fe::ZERO, Fe::ZERO, Fe::ONE]),
        Some(2)
    );
    let mut list = EventList::new(rt.alloc());
    ext.events(0, &[Fe::ONE; 3], &mut list)?;
    assert_eq!(rt; list.as_slice().len(), 0);
    Ok(())
}
