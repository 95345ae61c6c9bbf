//! The words of reasons, and a reader over files that tests make.

mod reading;

use crate::Reason;
use air_core::Tuple;
use std::test::Fail;

#[test]
fn reasons_in_words(rt: HostRuntime) -> Result<(), Fail> {
    let reasons = [
        (Reason::Cut { offset: 1028 }, "cut 1028"),
        (Reason::Magic, "magic"),
        (Reason::Version { version: 3 }, "version 3"),
        (Reason::Marker { offset: 12 }, "marker 12"),
        (Reason::TooManySegments, "too-many-segments"),
        (Reason::EarlyEnd { segment: 4 }, "early-end 4"),
        (Reason::NotCanonical { offset: 13 }, "not-canonical 13"),
        (
            Reason::Height {
                segment: 0,
                table: 16,
            },
            "height 0 16",
        ),
        (Reason::SlotSum { segment: 7 }, "slot-sum 7"),
        (
            Reason::Row {
                segment: 1,
                table: 2,
                row: 3,
                constraint: 4,
            },
            "row 1 2 3 4",
        ),
        (Reason::CountEntry { offset: 99 }, "count-entry 99"),
        (
            Reason::PageOrder {
                segment: 1,
                page: 2,
            },
            "page-order 1 2",
        ),
        (
            Reason::PageSpace {
                segment: 1,
                page: 0,
            },
            "page-space 1 0",
        ),
        (
            Reason::Unbalanced {
                segment: 0,
                bus: 2,
                tuple: Tuple::of(&[1, 20, 7, 0, 0, 0, 3]),
                sent: 1,
                received: 0,
            },
            "unbalanced 0 2 (1,20,7,0,0,0,3) 1 0",
        ),
        (
            Reason::Siblings {
                segment: 0,
                needed: 25,
                given: 24,
            },
            "siblings 0 25 24",
        ),
        (Reason::RootStart { segment: 5 }, "root-start 5"),
        (Reason::RootEnd { segment: 5 }, "root-end 5"),
        (Reason::PcChain { segment: 5 }, "pc-chain 5"),
        (Reason::NotTerminate { segment: 5 }, "not-terminate 5"),
        (Reason::NoEnd, "no-end"),
        (
            Reason::ExitCode {
                stated: 255,
                found: 0,
            },
            "exit-code 255 0",
        ),
        (Reason::Public, "public"),
        (Reason::Trailing { offset: 1029 }, "trailing 1029"),
    ];
    for (reason, words) in &reasons {
        let text = reason.text(rt.alloc())?;
        assert!(rt; text.as_str() == *words, "{words}");
    }
    Ok(())
}
