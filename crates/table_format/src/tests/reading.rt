//! A reader over files that a test makes byte by byte. What is expected was told by a plain program.
ghost use Rattle.std.specs.Prelude.{◌≡◌, ◌<◌, ◌^◌, length, true};
ghost use Rattle.vm_host.specs.declared.Slot.TheVariants.{Second};

use crate::item::Item;
use crate::{Reason, Shape, TableReader, read_head};
use readings::Stop;
use std::alloc::{AllocError, Global};
use std::test::Fail;
use vm_host::{Host, NoFaultHost, Slot};

// How a reading ended: behind how many items, and for which reason.
#[derive(Clone, Copy, Debug, PartialEq, Eq)]
struct Outcome {
    items: u32,
    reason: Option<Reason>,
}

// Reads up to the End or the first reason.
fn read_all<H: Host>(reader: &mut TableReader, host: &mut H) -> Result<Outcome, Fail>
    requires open { ((H.state host.old).input Second).is_open ≡ true }
{
    'items: for items in 0..1000 {
        if reader.segments() > 4096 {
            return Err(Fail::new("many segments"));
        }
        match reader.next(host) {
            Ok(Item::End) => {
                return Ok(Outcome {
                    items,
                    reason: None,
                });
            }
            Ok(_) => {}
            Err(Stop::Refused(reason)) => {
                return Ok(Outcome {
                    items,
                    reason: Some(reason),
                });
            }
            Err(_) => return Err(Fail::new("not read")),
        }
    }
    Err(Fail::new("many items"))
}

// What the file's reader comes to.
fn read(alloc: Global, widths: &[u32], bytes: Vec<u8>) -> Result<Outcome, Fail>
    requires few { length widths.now < 2 ^ 32 }
{
    let mut host = NoFaultHost::new(alloc, Vec::new(alloc), bytes);
    host.open_input(Slot::Second, "tables")?;
    let shape = Shape {
        widths: widths.to_vec(alloc)?,
        program_len: 5,
    };
    let mut reader = TableReader::new(alloc, shape)?;
    read_all(&mut reader, &mut host)
}

fn put_numbers(file: &mut Vec<u8>, numbers: &[u32]) -> Result<(), AllocError> {
    for number in numbers {
        file.extend_from_slice(&number.to_le_bytes())?;
    }
    Ok(())
}

// A mark, the connector and the roots.
fn put_bounds(
    file: &mut Vec<u8>,
    connector: &[u32],
    ends: u8,
    roots: [u8; 2],
) -> Result<(), AllocError> {
    file.push(1)?;
    put_numbers(file, connector)?;
    file.push(ends)?;
    for root in roots {
        file.extend_from_slice(&[root; 32])?;
    }
    Ok(())
}

// No segment follows; an exit code, a page and a path.
fn put_claim(file: &mut Vec<u8>, code: u8) -> Result<(), AllocError> {
    file.push(0)?;
    file.push(code)?;
    file.extend_from_slice(&[8; 64])?;
    for _ in 0..25 {
        file.extend_from_slice(&[9; 32])?;
    }
    Ok(())
}

// Two segments over tables of two, one and three columns. The first has rows, entries, a page and siblings; the second
// has none.
fn two_segments(alloc: Global) -> Result<Vec<u8>, AllocError> {
    let mut file = b"RVTABLES\x01\0\0\0".to_vec(alloc)?;
    put_bounds(&mut file, &[4096, 8192, 7], 0, [1, 2])?;
    file.extend_from_slice(&[2, 0, 1])?;
    put_numbers(&mut file, &[1, 2, 3, 4, 5, 6, 7])?;
    put_numbers(&mut file, &[2, 0, 1, 4, 2])?;
    put_numbers(&mut file, &[1, 65535, 3, 1, 131070, 4, 1, 63, 5])?;
    put_numbers(&mut file, &[1, 8388608])?;
    file.extend_from_slice(&[3; 64])?;
    file.extend_from_slice(&[4; 64])?;
    put_numbers(&mut file, &[9; 16])?;
    put_numbers(&mut file, &[2])?;
    file.extend_from_slice(&[5; 64])?;
    put_bounds(&mut file, &[8192, 8196, 2], 1, [2, 1])?;
    file.extend_from_slice(&[0, 0, 0])?;
    put_numbers(&mut file, &[0, 0, 0, 0, 0, 0])?;
    put_claim(&mut file, 7)?;
    Ok(file)
}

// What is found where every bit of the byte at this place is turned.
fn reason_of_turned(place: u32) -> Option<Reason> {
    match place {
        0..=7 => Some(Reason::Magic),
        8 => Some(Reason::Version { version: 254 }),
        9 => Some(Reason::Version { version: 65_281 }),
        10 => Some(Reason::Version {
            version: 16_711_681,
        }),
        11 => Some(Reason::Version {
            version: 4_278_190_081,
        }),
        12 | 25 | 445 | 458 | 550 => Some(Reason::Marker {
            offset: place as u64,
        }),
        // the highest byte of an element: of the connectors, the rows and the times
        16 | 20 | 24 | 96 | 100 | 104 | 108 | 112 | 116 | 120 | 449 | 453 | 457 => {
            Some(Reason::NotCanonical {
                offset: place as u64 - 3,
            })
        }
        313..=376 if place % 4 == 0 => Some(Reason::NotCanonical {
            offset: place as u64 - 3,
        }),
        90..=92 => Some(Reason::Height {
            segment: 0,
            table: place - 90,
        }),
        523..=525 => Some(Reason::Height {
            segment: 1,
            table: place - 523,
        }),
        121..=180 | 526..=541 => entry_of_turned(place),
        377..=380 | 542..=549 => Some(Reason::Cut { offset: 1416 }),
        _ => None,
    }
}

// The same in a list of counts: its number, the places and the counts.
fn entry_of_turned(place: u32) -> Option<Reason> {
    let offset = match place {
        121..=124 => 141,
        125..=128 => 125,
        133..=136 => 133,
        141..=144 => 153,
        147..=148 => 145,
        153..=156 => 165,
        159..=160 => 157,
        165..=168 => 177,
        169..=172 => 169,
        177..=180 => return Some(Reason::Cut { offset: 1416 }),
        526..=529 => 530,
        530..=533 => 534,
        534..=537 => 538,
        538..=541 => 542,
        _ => return None,
    };
    Some(Reason::CountEntry { offset })
}

#[test]
fn every_cut_and_a_byte_more(rt: HostRuntime) -> Result<(), Fail> {
    let alloc = rt.alloc();
    let file = two_segments(alloc)?;
    assert_eq!(rt; file.len(), 1416);
    for length in 0..file.len() {
        let cut = file.iter().take(length).copied().collect(alloc)?;
        let reason = Reason::Cut {
            offset: length as u64,
        };
        assert_eq!(rt;
            read(alloc, &[2, 1, 3], cut)?.reason,
            Some(reason),
            "{length}"
        );
    }
    let mut more = file.to_vec(alloc)?;
    more.push(0)?;
    let trailing = Outcome {
        items: 25,
        reason: Some(Reason::Trailing { offset: 1416 }),
    };
    assert_eq!(rt; read(alloc, &[2, 1, 3], more)?, trailing);
    let whole = Outcome {
        items: 25,
        reason: None,
    };
    assert_eq!(rt; read(alloc, &[2, 1, 3], file)?, whole);
    Ok(())
}

#[test]
fn every_changed_byte(rt: HostRuntime) -> Result<(), Fail> {
    let alloc = rt.alloc();
    let file = two_segments(alloc)?;
    let mut items: u64 = 0;
    for place in 0..1416 {
        let mut changed = file.to_vec(alloc)?;
        if let Some(byte) = changed.get_mut(place as usize) {
            *byte = !*byte;
        }
        let found = read(alloc, &[2, 1, 3], changed)?;
        assert_eq!(rt; found.reason, reason_of_turned(place), "{place}");
        items = items.saturating_add(found.items as u64);
    }
    assert_eq!(rt; items, 34_198);
    Ok(())
}

// A file of seventeen tables without rows, and the bytes in it that differ: from which place on, and how many go.
fn no_rows(
    alloc: Global,
    version: u8,
    (at, bytes, gone): (usize, &[u8], usize),
) -> Result<Vec<u8>, AllocError> {
    let mut file = b"RVTABLES".to_vec(alloc)?;
    file.extend_from_slice(&[version, 0, 0, 0])?;
    put_bounds(&mut file, &[4096, 4096, 1], 1, [1, 1])?;
    file.extend_from_slice(&[0; 17])?;
    put_numbers(&mut file, &[0, 0, 0, 0, 0, 1])?;
    file.extend_from_slice(&[1; 32])?;
    put_claim(&mut file, 7)?;
    let front = file.iter().take(at);
    let behind = file.iter().skip(at).skip(gone);
    front.chain(bytes).chain(behind).copied().collect(alloc)
}

#[test]
fn a_file_without_rows(rt: HostRuntime) -> Result<(), Fail> {
    let alloc = rt.alloc();
    let widths = [2; 17];
    let whole = no_rows(alloc, 1, (0, &[], 0))?;
    assert_eq!(rt; whole.len(), 1029);
    assert_eq!(rt; read(alloc, &widths, whole)?.reason, None);
    let changes: [(usize, &[u8], usize, Reason); 8] = [
        (1028, &[], 1, Reason::Cut { offset: 1028 }),
        (1029, &[0], 0, Reason::Trailing { offset: 1029 }),
        (0, &[], 1029, Reason::Cut { offset: 0 }),
        (13, &[1, 0, 0, 0x78], 4, Reason::NotCanonical { offset: 13 }),
        (8, &[9], 1, Reason::Version { version: 9 }),
        (12, &[2], 1, Reason::Marker { offset: 12 }),
        (
            90,
            &[22],
            1,
            Reason::Height {
                segment: 0,
                table: 0,
            },
        ),
        (
            107,
            &[1, 0, 0, 0, 0, 0, 0, 0, 0, 0, 0, 0],
            4,
            Reason::CountEntry { offset: 111 },
        ),
    ];
    for (at, bytes, gone, reason) in changes {
        let file = no_rows(alloc, 1, (at, bytes, gone))?;
        assert_eq!(rt; read(alloc, &widths, file)?.reason, Some(reason), "{at}");
    }
    Ok(())
}

// What a reader of the body comes to behind a head of up to version 2, where that is read.
fn read_on(alloc: Global, bytes: Vec<u8>) -> Result<Outcome, Fail> {
    let mut host = NoFaultHost::new(alloc, Vec::new(alloc), bytes);
    host.open_input(Slot::Second, "tables")?;
    let version = match read_head(&mut host, 2) {
        Ok(version) => version,
        Err(Stop::Refused(reason)) => {
            return Ok(Outcome {
                items: 0,
                reason: Some(reason),
            });
        }
        Err(_) => return Err(Fail::new("not read")),
    };
    let shape = Shape {
        widths: vec![in alloc; 2u32; 18]?,
        program_len: 5,
    };
    let mut reader = TableReader::body(alloc, version, shape)?;
    read_all(&mut reader, &mut host)
}

#[test]
fn later_versions(rt: HostRuntime) -> Result<(), Fail> {
    let alloc = rt.alloc();
    // a table more, and the height's code 25 or 26, which no row follows
    let changes: [(u8, u8, Option<Reason>); 6] = [
        (2, 0, None),
        (3, 0, Some(Reason::Version { version: 3 })),
        (0, 0, Some(Reason::Version { version: 0 })),
        (2, 25, Some(Reason::Cut { offset: 1030 })),
        (
            2,
            26,
            Some(Reason::Height {
                segment: 0,
                table: 0,
            }),
        ),
        (
            1,
            25,
            Some(Reason::Height {
                segment: 0,
                table: 0,
            }),
        ),
    ];
    for (version, code, reason) in changes {
        let file = no_rows(alloc, version, (90, &[code, 0], 1))?;
        assert_eq!(rt; file.len(), 1030);
        assert_eq!(rt; read_on(alloc, file)?.reason, reason, "{version} {code}");
    }
    Ok(())
}
