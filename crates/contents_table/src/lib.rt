//! The contents table of a file: the channels of frames, and where each of them stands in each frame.
//!
//! `channels` walks over the channels of a frame. `TableBuilder` collects names and places, and writes the
//! table; `TableView` is a table as its body lists it.
#![tactic(auto)]

mod builder;
mod channel_lists;
mod fit;
mod kind;
mod kind_view;
mod layouts;
mod lent;
mod names;
mod places;
mod spelling;
mod view;
mod writing;

pub use builder::TableBuilder;
pub use channel_lists::{channel_name, channel_named, channels, header_record, upper_record};
pub use fit::TableLayout;
pub use kind::Kind;
pub use layouts::ChannelLayouts;
pub use view::TableView;
