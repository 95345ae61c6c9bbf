//! What a reader gives, step by step.
ghost use Rattle.std.specs.Prelude.{◌≡◌, ◌+◌, ◌≤◌, ◌<◌, ◌^◌, [], length, true, IfOk, None, List, slice_index};
ghost use Rattle.vm_host.specs.declared.Slot.TheVariants.{Second};
ghost use Rattle.table_format.specs.Reader.{Fits, mark_step, first_step, segment_step, height_step, row_step, sibling_step, siblings_step, page_step, behind_number, entry_step, constants_step, range_step, xor_step, program_step, entries_step, claim_step, ending_step, item_at};
ghost use Rattle.table_format.specs.ReadsItems.{form_of, spot_of, IsNew, StepsBy, Advances, TellsEndOnce};
ghost use Rattle.table_format.specs.declared.stage.Stage.{Stage};
ghost use Rattle.table_format.specs.declared.stage.Stage.TheVariants.{Head, Marker, Segment, Done};

use super::stages::{
    behind_heights, behind_mark, behind_row, greatest_code, height_of, is_done, list_rows,
    siblings_left,
};
use super::{Shape, TableReader};
use crate::error::error_of;
use crate::item::{Bounds, Item};
use crate::stage::Stage;
use crate::{Reason, Stream};
use readings::Stop;
use std::alloc::{AllocError, Global};
use vm_field::Fe;
use vm_host::Host;
use vm_trace::CountList;

// A reader that has given nothing.
fn reader_at(
    alloc: Global,
    version: u32,
    shape: Shape,
    stage: Stage,
    offset: u64,
) -> Result<TableReader, AllocError>
    requires few { length shape.widths.items < 2 ^ 32 }
    requires fits { Fits stage 0 (length shape.widths.items) }
    ensures { IfOk result (λ r. IsNew version shape stage offset r) }
{
    let stream = Stream::new(alloc, offset)?;
    Ok(TableReader {
        stream,
        version,
        shape,
        stage,
        segments: 0,
        heights: Vec::new(alloc),
        row: Vec::new(alloc),
        error: None,
    })
}

fn number_at(numbers: &[u32], index: u32) -> u32
    requires { index < length numbers.now }
    ensures { result ≡ slice_index numbers.now index }
{
    numbers[index as usize]
}

impl TableReader {
    /// A reader of a file of version 1, which stands at the file's first byte.
    pub fn new(alloc: Global, shape: Shape) -> Result<TableReader, AllocError>
        requires few { length shape.widths.items < 2 ^ 32 }
        ensures { IfOk result (λ r. IsNew 1 shape Head 0 r) }
    {
        reader_at(alloc, 1, shape, Stage::Head, 0)
    }

    /// A reader of what stands behind the head of a file of this version. Its offsets begin at 12, the head's length.
    pub fn body(alloc: Global, version: u32, shape: Shape) -> Result<TableReader, AllocError>
        requires few { length shape.widths.items < 2 ^ 32 }
        ensures { IfOk result (λ r. IsNew version shape Marker 12 r) }
    {
        reader_at(alloc, version, shape, Stage::Marker, 12)
    }

    /// The values of the last Row item.
    pub fn row(&self) -> &[Fe]
        ensures { result.now ≡ (spot_of self.now).row }
    {
        &self.row
    }

    /// How many Segment items were given.
    pub fn segments(&self) -> u32
        ensures { result ≡ self.now.segments }
    {
        self.segments
    }

    /// The place in the file behind the items given so far.
    pub fn offset(&self) -> u64
        ensures { result ≡ self.now.stream.at }
    {
        self.stream.offset()
    }

    /// The next item of the file. After the End it is End again, and nothing is read.
    pub fn next<H: Host>(&mut self, host: &mut H) -> Result<Item, Stop<Reason>>
        requires open { ((H.state host.old).input Second).is_open ≡ true }
        requires few { self.old.segments ≤ 4096 }
        ensures advances { Advances self.old self.new (H.state host.old) (H.state host.new) result }
        ensures stays { ((H.state host.new).input Second).is_open ≡ true }
    {
        if let Some(error) = self.error {
            return Err(error);
        }
        if is_done(self.stage) {
            return Ok(Item::End);
        }
        let result = self.item(host);
        self.error = error_of(&result);
        result
    }

    /// Whether no byte follows the items given so far. It gives no item.
    pub fn at_end<H: Host>(&mut self, host: &mut H) -> Result<bool, Stop<Reason>>
        requires open { ((H.state host.old).input Second).is_open ≡ true }
        ensures tells { TellsEndOnce self.old self.new (H.state host.old) (H.state host.new) result }
        ensures stays { ((H.state host.new).input Second).is_open ≡ true }
    {
        if let Some(error) = self.error {
            return Err(error);
        }
        let result = self.stream.at_end(host);
        self.error = error_of(&result);
        result
    }

    /// Says that the items of one segment, behind its mark, were taken from the stream by calls of its own.
    pub fn segment_taken(&mut self)
        requires follows { self.old.stage ≡ Segment }
        requires few { self.old.segments ≤ 4096 }
        ensures spot { spot_of self.new ≡ record { stage = Marker; segments = self.old.segments + 1; heights = []; row = self.old.row.items } }
        ensures kept { (form_of self.new ≡ form_of self.old) × (self.new.stream ≡ self.old.stream) × (self.new.error ≡ self.old.error) }
    {
        self.heights.clear();
        self.stage = Stage::Marker;
        self.segments += 1;
    }

    fn item<H: Host>(&mut self, host: &mut H) -> Result<Item, Stop<Reason>>
        requires open { ((H.state host.old).input Second).is_open ≡ true }
        requires few { self.old.segments ≤ 4096 }
        ensures { StepsBy (item_at (form_of self.old) (spot_of self.old)) self.old self.new (H.state host.old) (H.state host.new) result }
    {
        match self.stage {
            Stage::Head => self.first(host),
            Stage::Marker => self.mark(host),
            Stage::Segment => self.segment(host),
            Stage::Height { table } => self.height(host, table),
            Stage::Row { table, left } => self.next_row(host, table, left),
            Stage::Counts => self.counts(host),
            Stage::Entry { list, left, least } => self.entries(host, list, left, least),
            Stage::Page { left } => self.page(host, left),
            Stage::Sibling { left } => self.sibling(host, left),
            Stage::Claim => self.claim(host),
            Stage::End => self.ending(host),
            Stage::Done => Ok(Item::End),
        }
    }

    // The head gives no item.
    fn first<H: Host>(&mut self, host: &mut H) -> Result<Item, Stop<Reason>>
        requires open { ((H.state host.old).input Second).is_open ≡ true }
        ensures { StepsBy (first_step (form_of self.old) (spot_of self.old)) self.old self.new (H.state host.old) (H.state host.new) result }
    {
        self.stream.head(host, self.version)?;
        self.mark(host)
    }

    fn mark<H: Host>(&mut self, host: &mut H) -> Result<Item, Stop<Reason>>
        requires open { ((H.state host.old).input Second).is_open ≡ true }
        ensures { StepsBy (mark_step (spot_of self.old)) self.old self.new (H.state host.old) (H.state host.new) result }
    {
        let more = self.stream.flag(host)?;
        self.stage = behind_mark(more);
        Ok(Item::Marker { more })
    }

    fn segment<H: Host>(&mut self, host: &mut H) -> Result<Item, Stop<Reason>>
        requires open { ((H.state host.old).input Second).is_open ≡ true }
        requires few { self.old.segments ≤ 4096 }
        ensures { StepsBy (segment_step (form_of self.old) (spot_of self.old)) self.old self.new (H.state host.old) (H.state host.new) result }
    {
        let Bounds {
            connector,
            start,
            end,
        } = self.stream.bounds(host)?;
        self.segments += 1;
        self.heights.clear();
        self.stage = behind_heights(self.shape.widths.len(), &self.heights);
        Ok(Item::Segment {
            connector,
            start,
            end,
        })
    }

    fn height<H: Host>(&mut self, host: &mut H, table: u32) -> Result<Item, Stop<Reason>>
        requires open { ((H.state host.old).input Second).is_open ≡ true }
        requires next { (table ≡ length self.old.heights.items) × (table < length self.old.shape.widths.items) }
        ensures { StepsBy (height_step (form_of self.old) (spot_of self.old) table) self.old self.new (H.state host.old) (H.state host.new) result }
    {
        let segment = self.segments.saturating_sub(1);
        let code = self
            .stream
            .height_code(host, greatest_code(self.version), segment, table)?;
        let height = height_of(code);
        self.heights.push(height)?;
        self.stage = behind_heights(self.shape.widths.len(), &self.heights);
        Ok(Item::Height { table, height })
    }

    fn next_row<H: Host>(
        &mut self,
        host: &mut H,
        table: u32,
        left: u32,
    ) -> Result<Item, Stop<Reason>>
        requires open { ((H.state host.old).input Second).is_open ≡ true }
        requires known { (table < length self.old.heights.items) × (length self.old.heights.items ≤ length self.old.shape.widths.items) }
        ensures { StepsBy (row_step (form_of self.old) (spot_of self.old) table left) self.old self.new (H.state host.old) (H.state host.new) result }
    {
        let width = number_at(&self.shape.widths, table);
        let place = number_at(&self.heights, table).saturating_sub(left);
        self.stream.row(host, &mut self.row, width)?;
        self.stage = behind_row(&self.heights, table, left);
        Ok(Item::Row { table, place })
    }

    fn counts<H: Host>(&mut self, host: &mut H) -> Result<Item, Stop<Reason>>
        requires open { ((H.state host.old).input Second).is_open ≡ true }
        ensures { StepsBy (behind_number (λ n. program_step (form_of self.old) (spot_of self.old) n 0)) self.old self.new (H.state host.old) (H.state host.new) result }
    {
        let left = self.stream.number(host)?;
        self.program(host, left, 0)
    }

    fn entries<H: Host>(
        &mut self,
        host: &mut H,
        list: CountList,
        left: u32,
        least: u32,
    ) -> Result<Item, Stop<Reason>>
        requires open { ((H.state host.old).input Second).is_open ≡ true }
        ensures { StepsBy (entries_step (form_of self.old) (spot_of self.old) list left least) self.old self.new (H.state host.old) (H.state host.new) result }
    {
        match list {
            CountList::Program => self.program(host, left, least),
            CountList::Xor => self.xor(host, left, least),
            CountList::Range => self.range(host, left, least),
            CountList::ShaConst => self.constants(host, left, least),
        }
    }

    // Entries of the program's list, and what stands behind them.
    fn program<H: Host>(
        &mut self,
        host: &mut H,
        left: u32,
        least: u32,
    ) -> Result<Item, Stop<Reason>>
        requires open { ((H.state host.old).input Second).is_open ≡ true }
        ensures { StepsBy (program_step (form_of self.old) (spot_of self.old) left least) self.old self.new (H.state host.old) (H.state host.new) result }
    {
        if left > 0 {
            return self.entry(host, CountList::Program, left, least);
        }
        let number = self.stream.number(host)?;
        self.xor(host, number, 0)
    }

    // Entries of the xor table's list, and what stands behind them.
    fn xor<H: Host>(&mut self, host: &mut H, left: u32, least: u32) -> Result<Item, Stop<Reason>>
        requires open { ((H.state host.old).input Second).is_open ≡ true }
        ensures { StepsBy (xor_step (form_of self.old) (spot_of self.old) left least) self.old self.new (H.state host.old) (H.state host.new) result }
    {
        if left > 0 {
            return self.entry(host, CountList::Xor, left, least);
        }
        let number = self.stream.number(host)?;
        self.range(host, number, 0)
    }

    // Entries of the range table's list, and what stands behind them.
    fn range<H: Host>(&mut self, host: &mut H, left: u32, least: u32) -> Result<Item, Stop<Reason>>
        requires open { ((H.state host.old).input Second).is_open ≡ true }
        ensures { StepsBy (range_step (form_of self.old) (spot_of self.old) left least) self.old self.new (H.state host.old) (H.state host.new) result }
    {
        if left > 0 {
            return self.entry(host, CountList::Range, left, least);
        }
        let number = self.stream.number(host)?;
        self.constants(host, number, 0)
    }

    // Entries of the list of SHA's constants, and what stands behind them.
    fn constants<H: Host>(
        &mut self,
        host: &mut H,
        left: u32,
        least: u32,
    ) -> Result<Item, Stop<Reason>>
        requires open { ((H.state host.old).input Second).is_open ≡ true }
        ensures { StepsBy (constants_step (form_of self.old) (spot_of self.old) left least) self.old self.new (H.state host.old) (H.state host.new) result }
    {
        if left > 0 {
            return self.entry(host, CountList::ShaConst, left, least);
        }
        let number = self.stream.number(host)?;
        self.page(host, number)
    }

    // An entry of a list that has so many left.
    fn entry<H: Host>(
        &mut self,
        host: &mut H,
        list: CountList,
        left: u32,
        least: u32,
    ) -> Result<Item, Stop<Reason>>
        requires open { ((H.state host.old).input Second).is_open ≡ true }
        requires some { 0 < left }
        ensures { StepsBy (entry_step (form_of self.old) (spot_of self.old) list left least) self.old self.new (H.state host.old) (H.state host.new) result }
    {
        let end = list_rows(self.shape.program_len, list);
        let entry = self.stream.entry(host, end, least)?;
        self.stage = Stage::Entry {
            list,
            left: left - 1,
            least: entry.place + 1,
        };
        Ok(Item::Count { list, entry })
    }

    // Pages, and what stands behind them.
    fn page<H: Host>(&mut self, host: &mut H, left: u32) -> Result<Item, Stop<Reason>>
        requires open { ((H.state host.old).input Second).is_open ≡ true }
        ensures { StepsBy (page_step (spot_of self.old) left) self.old self.new (H.state host.old) (H.state host.new) result }
    {
        if left > 0 {
            let page = self.stream.page(host)?;
            self.stage = Stage::Page { left: left - 1 };
            return Ok(Item::Page(page));
        }
        self.siblings(host)
    }

    // The number of siblings.
    fn siblings<H: Host>(&mut self, host: &mut H) -> Result<Item, Stop<Reason>>
        requires open { ((H.state host.old).input Second).is_open ≡ true }
        ensures { StepsBy (siblings_step (spot_of self.old)) self.old self.new (H.state host.old) (H.state host.new) result }
    {
        let number = self.stream.number(host)?;
        self.stage = siblings_left(number);
        Ok(Item::SiblingCount(number))
    }

    fn sibling<H: Host>(&mut self, host: &mut H, left: u32) -> Result<Item, Stop<Reason>>
        requires open { ((H.state host.old).input Second).is_open ≡ true }
        ensures { StepsBy (sibling_step (spot_of self.old) left) self.old self.new (H.state host.old) (H.state host.new) result }
    {
        let sibling = self.stream.digest(host)?;
        self.stage = siblings_left(left.saturating_sub(1));
        Ok(Item::Sibling(sibling))
    }

    fn claim<H: Host>(&mut self, host: &mut H) -> Result<Item, Stop<Reason>>
        requires open { ((H.state host.old).input Second).is_open ≡ true }
        ensures { StepsBy (claim_step (spot_of self.old)) self.old self.new (H.state host.old) (H.state host.new) result }
    {
        let claim = self.stream.claim(host)?;
        self.stage = Stage::End;
        Ok(Item::Claim(claim))
    }

    // The End, where no byte follows.
    fn ending<H: Host>(&mut self, host: &mut H) -> Result<Item, Stop<Reason>>
        requires open { ((H.state host.old).input Second).is_open ≡ true }
        ensures { StepsBy (ending_step (spot_of self.old)) self.old self.new (H.state host.old) (H.state host.new) result }
    {
        if self.stream.at_end(host)? {
            self.stage = Stage::Done;
            Ok(Item::End)
        } else {
            Err(Stop::Refused(Reason::Trailing {
                offset: self.stream.offset(),
            }))
        }
    }
}
