//! The items of a file, each taken from the stream by a call of its own. The caller knows which item comes next.
//!
//! Where a call answers `Ok`, what it read is the reading's value and the stream stands behind it. Where it refuses,
//! the reason and its offset are the reading's, and where the stream stands is not said.
ghost use Rattle.std.specs.Prelude.{◌≡◌, ◌≤◌, ◌<◌, length, true, IfOk, OnOk};
ghost use Rattle.vm_host.specs.declared.Slot.TheVariants.{Second};
ghost use Rattle.readings.specs.Told.{Is};
ghost use Rattle.table_format.specs.Items.{bounds_in, claim_in};
ghost use Rattle.table_format.specs.Texts.{magic};
ghost use Rattle.table_format.specs.Order.{same_bytes, is_version, is_entry, byte, flag, element, elements, digest, digests, leaf, height_code, entry, touched, bounds, claim, head};
ghost use Rattle.table_format.specs.Stream.{ReadsBy, TellsEnd};

use crate::item::{Bounds, Claim, Connector};
use crate::{Reason, Stream};
use readings::Stop;
use vm_field::Fe;
use vm_host::Host;
use vm_trace::{CountEntry, Digest, Touched};

/// The form's name.
pub(crate) const MAGIC: [u8; 8] = *b"RVTABLES";

pub(crate) fn is_magic(name: [u8; 8]) -> bool
    ensures { result ≡ same_bytes name magic }
{
    name == MAGIC
}

pub(crate) fn is_version(greatest: u32, version: u32) -> bool
    ensures { result ≡ is_version greatest version }
{
    0 < version && version <= greatest
}

fn is_entry(end: u32, least: u32, entry: CountEntry) -> bool
    ensures { result ≡ is_entry end least entry }
{
    least <= entry.place && entry.place < end && 0 < entry.count
}

impl Stream {
    /// A byte.
    pub fn byte<H: Host>(&mut self, host: &mut H) -> Result<u8, Stop<Reason>>
        requires open { ((H.state host.old).input Second).is_open ≡ true }
        ensures { ReadsBy byte Is self.old self.new (H.state host.old) (H.state host.new) result }
    {
        let mut text = [0u8; 1];
        self.fill(host, &mut text)?;
        Ok(text[0])
    }

    /// A mark, which is 0 or 1.
    pub fn flag<H: Host>(&mut self, host: &mut H) -> Result<bool, Stop<Reason>>
        requires open { ((H.state host.old).input Second).is_open ≡ true }
        ensures { ReadsBy flag Is self.old self.new (H.state host.old) (H.state host.new) result }
    {
        let offset = self.offset();
        let mark = self.byte(host)?;
        if mark < 2 {
            Ok(mark == 1)
        } else {
            Err(Stop::Refused(Reason::Marker { offset }))
        }
    }

    /// An element of the field.
    pub fn element<H: Host>(&mut self, host: &mut H) -> Result<Fe, Stop<Reason>>
        requires open { ((H.state host.old).input Second).is_open ≡ true }
        ensures { ReadsBy element Is self.old self.new (H.state host.old) (H.state host.new) result }
    {
        let offset = self.offset();
        let number = self.number(host)?;
        match Fe::new(number) {
            Some(element) => Ok(element),
            None => Err(Stop::Refused(Reason::NotCanonical { offset })),
        }
    }

    /// The values of a row, which take the place of what the buffer has.
    pub fn row<H: Host>(
        &mut self,
        host: &mut H,
        buffer: &mut Vec<Fe>,
        width: u32,
    ) -> Result<(), Stop<Reason>>
        requires open { ((H.state host.old).input Second).is_open ≡ true }
        ensures reads { ReadsBy (elements width) (λ row unit. buffer.new.items ≡ row) self.old self.new (H.state host.old) (H.state host.new) result }
        ensures wide { OnOk result (length buffer.new.items ≡ width) }
    {
        buffer.resize(width as usize, Fe::ZERO)?;
        if self.held_elements(buffer) {
            return Ok(());
        }
        buffer.clear();
        'values: for _ in 0..width {
            let element = match self.held_element() {
                Some(element) => element,
                None => self.element(host)?,
            };
            buffer.push(element)?;
        }
        Ok(())
    }

    /// A digest of 32 bytes.
    pub fn digest<H: Host>(&mut self, host: &mut H) -> Result<Digest, Stop<Reason>>
        requires open { ((H.state host.old).input Second).is_open ≡ true }
        ensures { ReadsBy digest Is self.old self.new (H.state host.old) (H.state host.new) result }
    {
        let mut text = [0u8; 32];
        self.fill(host, &mut text)?;
        Ok(text)
    }

    // The bytes of a page.
    fn leaf<H: Host>(&mut self, host: &mut H) -> Result<[u8; 64], Stop<Reason>>
        requires open { ((H.state host.old).input Second).is_open ≡ true }
        ensures { ReadsBy leaf Is self.old self.new (H.state host.old) (H.state host.new) result }
    {
        let mut text = [0u8; 64];
        self.fill(host, &mut text)?;
        Ok(text)
    }

    /// The code of a table's height, up to the greatest of the version.
    pub fn height_code<H: Host>(
        &mut self,
        host: &mut H,
        greatest: u8,
        segment: u32,
        table: u32,
    ) -> Result<u8, Stop<Reason>>
        requires open { ((H.state host.old).input Second).is_open ≡ true }
        ensures reads { ReadsBy (height_code greatest segment table) Is self.old self.new (H.state host.old) (H.state host.new) result }
        ensures low { IfOk result (λ code. code ≤ greatest) }
    {
        let code = self.byte(host)?;
        if code <= greatest {
            Ok(code)
        } else {
            Err(Stop::Refused(Reason::Height { segment, table }))
        }
    }

    /// An entry of a count list, whose place is from `least` on and below `end`.
    pub fn entry<H: Host>(
        &mut self,
        host: &mut H,
        end: u32,
        least: u32,
    ) -> Result<CountEntry, Stop<Reason>>
        requires open { ((H.state host.old).input Second).is_open ≡ true }
        ensures reads { ReadsBy (entry end least) Is self.old self.new (H.state host.old) (H.state host.new) result }
        ensures good { IfOk result (λ entry. (least ≤ entry.place) × (entry.place < end) × (0 < entry.count)) }
    {
        let offset = self.offset();
        let place = self.number(host)?;
        let count = self.number(host)?;
        let entry = CountEntry { place, count };
        if is_entry(end, least, entry) {
            Ok(entry)
        } else {
            Err(Stop::Refused(Reason::CountEntry { offset }))
        }
    }

    // The times of a page's blocks.
    fn times<H: Host>(&mut self, host: &mut H) -> Result<[u32; 16], Stop<Reason>>
        requires open { ((H.state host.old).input Second).is_open ≡ true }
        ensures { ReadsBy (elements 16) Is self.old self.new (H.state host.old) (H.state host.new) result }
    {
        let mut times = [0u32; 16];
        'times: for block in 0..16 {
            times[block] = self.element(host)?.value();
        }
        Ok(times)
    }

    /// A page.
    pub fn page<H: Host>(&mut self, host: &mut H) -> Result<Touched, Stop<Reason>>
        requires open { ((H.state host.old).input Second).is_open ≡ true }
        ensures { ReadsBy touched Is self.old self.new (H.state host.old) (H.state host.new) result }
    {
        let label = self.number(host)?;
        let old = self.leaf(host)?;
        let new = self.leaf(host)?;
        let times = self.times(host)?;
        Ok(Touched {
            label,
            old,
            new,
            times,
        })
    }

    /// What stands first in a segment.
    pub fn bounds<H: Host>(&mut self, host: &mut H) -> Result<Bounds, Stop<Reason>>
        requires open { ((H.state host.old).input Second).is_open ≡ true }
        ensures { ReadsBy bounds (λ v b. v ≡ bounds_in b) self.old self.new (H.state host.old) (H.state host.new) result }
    {
        let pc_start = self.element(host)?;
        let pc_end = self.element(host)?;
        let end_time = self.element(host)?;
        let ends = self.flag(host)?;
        let start = self.digest(host)?;
        let end = self.digest(host)?;
        Ok(Bounds {
            connector: Connector {
                pc_start: pc_start.value(),
                pc_end: pc_end.value(),
                end_time: end_time.value(),
                ends,
            },
            start,
            end,
        })
    }

    // The digests of a path.
    fn path<H: Host>(&mut self, host: &mut H) -> Result<[Digest; 25], Stop<Reason>>
        requires open { ((H.state host.old).input Second).is_open ≡ true }
        ensures { ReadsBy (digests 25) Is self.old self.new (H.state host.old) (H.state host.new) result }
    {
        let mut path = [[0u8; 32]; 25];
        'levels: for level in 0..25 {
            path[level] = self.digest(host)?;
        }
        Ok(path)
    }

    /// The claim, which stands behind the mark that no segment follows.
    pub fn claim<H: Host>(&mut self, host: &mut H) -> Result<Claim, Stop<Reason>>
        requires open { ((H.state host.old).input Second).is_open ≡ true }
        ensures { ReadsBy claim (λ v c. v ≡ claim_in c) self.old self.new (H.state host.old) (H.state host.new) result }
    {
        let code = self.byte(host)?;
        let public = self.leaf(host)?;
        let path = self.path(host)?;
        Ok(Claim { code, public, path })
    }

    /// The form's name and the version, which is from 1 to the greatest.
    pub fn head<H: Host>(&mut self, host: &mut H, greatest: u32) -> Result<u32, Stop<Reason>>
        requires open { ((H.state host.old).input Second).is_open ≡ true }
        ensures reads { ReadsBy (head greatest) Is self.old self.new (H.state host.old) (H.state host.new) result }
        ensures known { IfOk result (λ version. (1 ≤ version) × (version ≤ greatest)) }
    {
        let mut name = [0u8; 8];
        self.fill(host, &mut name)?;
        if !is_magic(name) {
            return Err(Stop::Refused(Reason::Magic));
        }
        let version = self.number(host)?;
        if is_version(greatest, version) {
            Ok(version)
        } else {
            Err(Stop::Refused(Reason::Version { version }))
        }
    }

    /// Whether no byte follows. None is given.
    pub fn at_end<H: Host>(&mut self, host: &mut H) -> Result<bool, Stop<Reason>>
        requires open { ((H.state host.old).input Second).is_open ≡ true }
        ensures { TellsEnd self.old self.new (H.state host.old) (H.state host.new) result }
    {
        let more = self.ready(host)?;
        Ok(!more)
    }
}
