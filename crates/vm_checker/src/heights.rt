// The heights of a segment's tables.
ghost use Rattle.std.specs.Prelude.{◌≡◌, ◌<◌, ◌≤◌, ◌^◌, length, true, IfOk};
ghost use Rattle.std.specs.List.{AllByRecursion};
ghost use Rattle.vm_host.specs.declared.Slot.TheVariants.{Second};
ghost use Rattle.vm_trace.specs.Canonical.{height_of};
ghost use Rattle.table_format.specs.Stream.{ReadsBy};
ghost use Rattle.vm_checker.specs.FirstReason.{slots_of, slots_test};
ghost use Rattle.vm_checker.specs.Items.{code_list, codes_of};

use air_core::Extension;
use readings::Stop;
use std::alloc::Global;
use table_format::{Reason, Stream};
use vm_host::Host;

/// How many rows a code stands for.
pub(crate) fn height(code: u8) -> u32
    requires { code ≤ 32 }
    ensures { result ≡ height_of code }
{
    if code == 0 { 0 } else { 1 << (code - 1) }
}

// The slots that tables of these heights have at most.
fn slot_sum<E: Extension>(ext: &E, codes: &[u8]) -> u128
    requires number { length codes.now ≡ length (E.system ext.now).parts }
    requires low { AllByRecursion (λ code. code ≤ 25) codes.now }
    ensures { result ≡ slots_of (E.system ext.now).parts codes.now }
{
    let mut sum = 0;
    for table in 0..ext.tables() {
        let height = height(codes[table as usize]);
        sum += height as u128 * ext.slots(table) as u128;
    }
    sum
}

/// Why tables of these heights have too many slots.
fn slots_reason<E: Extension>(ext: &E, codes: &[u8], segment: u32) -> Option<Reason>
    requires number { length codes.now ≡ length (E.system ext.now).parts }
    requires low { AllByRecursion (λ code. code ≤ 25) codes.now }
    ensures { result ≡ slots_test (E.system ext.now) segment codes.now }
{
    if slot_sum(ext, codes) < 1 << ext.time_bits() {
        None
    } else {
        Some(Reason::SlotSum { segment })
    }
}

// The codes, each up to the greatest.
fn take_list<H: Host>(
    alloc: Global,
    stream: &mut Stream,
    host: &mut H,
    tables: u32,
    greatest: u8,
    segment: u32,
) -> Result<Vec<u8>, Stop<Reason>>
    requires open { ((H.state host.old).input Second).is_open ≡ true }
    requires small { greatest ≤ 25 }
    ensures reads { ReadsBy (code_list tables greatest segment) (λ codes k. k.items ≡ codes) stream.old stream.new (H.state host.old) (H.state host.new) result }
    ensures number { IfOk result (λ codes. length codes.items ≡ tables) }
    ensures low { IfOk result (λ codes. AllByRecursion (λ code. code ≤ 25) codes.items) }
{
    let mut codes = Vec::new(alloc);
    for table in 0..tables {
        let code = stream.height_code(host, greatest, segment, table)?;
        codes.push(code)?;
    }
    Ok(codes)
}

/// The codes of all tables, whose slots are within the times that the extension keeps.
pub(crate) fn take_codes<E: Extension, H: Host>(
    alloc: Global,
    stream: &mut Stream,
    host: &mut H,
    ext: &E,
    greatest: u8,
    segment: u32,
) -> Result<Vec<u8>, Stop<Reason>>
    requires open { ((H.state host.old).input Second).is_open ≡ true }
    requires small { greatest ≤ 25 }
    ensures reads { ReadsBy (codes_of (E.system ext.now) greatest segment) (λ codes k. k.items ≡ codes) stream.old stream.new (H.state host.old) (H.state host.new) result }
    ensures number { IfOk result (λ codes. length codes.items ≡ length (E.system ext.now).parts) }
    ensures low { IfOk result (λ codes. AllByRecursion (λ code. code ≤ 25) codes.items) }
{
    let codes = take_list(alloc, stream, host, ext.tables(), greatest, segment)?;
    match slots_reason(ext, &codes, segment) {
        Some(reason) => Err(Stop::Refused(reason)),
        None => Ok(codes),
    }
}
