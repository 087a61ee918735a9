//! What is kept of the items of a file while they are read: the channels of its frames, and what was found of its
//! contents table.

ghost use Rattle.std.specs.Prelude.{◌≡◌, ℕ, List, Option, None, Some, OnOk, IfOk};
ghost use Rattle.scalar_types.specs.declared.Order.{Order};
ghost use Rattle.dictionary.specs.Dictionary.{IsDictionary};
ghost use Rattle.item_reader.specs.Reader.{Reader, Goes};
ghost use Rattle.contents_table.specs.Built.{nothing_built};
ghost use Rattle.contents_table.specs.Layouts.{layouts_of};
ghost use Rattle.file_content.specs.Stored.{StoredTable};
ghost use Rattle.file_content.specs.Contents.{IsJudged, IsState, listed_in, if_frames};
ghost use Rattle.file_content.specs.Scanned.{HasScanned, IsFound};

use crate::state::TableState;
use contents_table::{ChannelLayouts, TableBuilder, TableLayout, TableView};
use dictionary::Dictionary;
use item_reader::{Item, ItemReader};
use std::alloc::{AllocError, Global};

/// A contents table that was found: its place, and what it is found to be there, after all frames.
#[derive(Clone, Copy)]
pub struct FoundTable {
    pub at: u64,
    pub state: TableState,
}

/// What is kept of the items that were read.
#[derive(Drop)]
pub struct Scan {
    pub layouts: ChannelLayouts,
    pub channels: TableBuilder,
    pub table: Option<FoundTable>,
}

impl Scan {
    /// That of no item.
    pub fn new(alloc: Global, dictionary: &Dictionary) -> Scan
        ensures layouts { result.layouts ≡ layouts_of dictionary.now }
        ensures channels { result.channels ≡ nothing_built }
        ensures table { result.table ≡ None }
        ensures sound { IsDictionary dictionary.now }
    {
        Scan {
            layouts: ChannelLayouts::of(dictionary),
            channels: TableBuilder::new(alloc),
            table: None,
        }
    }

    /// Takes the item that a reader has just given.
    pub fn take(&mut self, alloc: Global, reader: &ItemReader, item: Item) -> Result<(), AllocError>
        requires error { reader.now.error ≡ None }
        requires last { reader.now.last ≡ Some item }
        ensures { OnOk result ((file : List ℕ) (before : Reader) → HasScanned file before self.old
            → Goes file before item reader.now → reader.now.order ≡ before.order
            → HasScanned file reader.now self.new) }
    {
        match item {
            Item::Entry { changed: true, .. } => {
                self.layouts = ChannelLayouts::of(reader.dictionary());
                Ok(())
            }
            Item::Entry { .. } => Ok(()),
            Item::FrameEnd { .. } => {
                self.channels
                    .add_segment(reader.segment(), reader.plans(), &self.layouts)
            }
            Item::Table { at, class, .. } => {
                let state = self.judge(alloc, reader, class)?;
                self.table = Some(FoundTable { at, state });
                Ok(())
            }
            _ => Ok(()),
        }
    }

    /// The state of the table in a file of so many bytes, whose end leads back by so many.
    pub fn state(&self, seek: u64, bytes: u64) -> TableState
        ensures { (order : Order) (frames : ℕ) (table : Option StoredTable)
            → IsFound order frames self.now.channels table self.now.table
            → IsState order bytes frames self.now.channels table seek result }
    {
        if seek == 0 {
            return TableState::None;
        }
        match self.table {
            Some(found) if bytes.checked_sub(seek) == Some(found.at) => found.state,
            _ => TableState::Lost,
        }
    }

    /// What the table whose body the reader has is found to be.
    fn judge(&self, alloc: Global, reader: &ItemReader, class: u8) -> Result<TableState, AllocError>
        requires error { reader.now.error ≡ None }
        ensures { IfOk result (λ state. IsJudged
            (listed_in reader.now.order reader.now.before.frames reader.now.before.dictionary class
            reader.now.body) self.now.channels state) }
    {
        let Some(entry) = reader.dictionary().get(class) else {
            return Ok(TableState::Unread);
        };
        let Some(plan) = reader.plans().plan(class) else {
            return Ok(TableState::Unread);
        };
        let Some(layout) = TableLayout::of(entry, plan) else {
            return Ok(TableState::Unread);
        };
        match TableView::read(&layout, plan, reader.order(), reader.body()) {
            Some(table) => self.judge_view(alloc, &table, reader.frames()),
            None => Ok(TableState::Unread),
        }
    }

    /// What a table that reads is found to be, after so many frames.
    fn judge_view(
        &self,
        alloc: Global,
        table: &TableView<'_>,
        frames: u64,
    ) -> Result<TableState, AllocError>
        ensures { IfOk result (λ state. IsJudged (if_frames frames table.now) self.now.channels state) }
    {
        if table.frames() != frames {
            return Ok(TableState::Unread);
        }
        if table.judge(alloc, &self.channels)? {
            Ok(TableState::Good)
        } else {
            Ok(TableState::Bad)
        }
    }
}
