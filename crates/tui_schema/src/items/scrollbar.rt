//! The fields of `scrollbar`.

ghost use Rattle.std.specs.Prelude.{◌≡◌, option_map, unwrap_or};
ghost use Rattle.serde_json.specs.View.{view};
ghost use Rattle.tui_lists.specs.Scrollbar.{scrollbar_data};
ghost use Rattle.tui_schema.specs.Items.ScrollbarFields.{styled_scrollbar, scrollbar_state_of, shown_scrollbar, scrollbar_with_symbols};
ghost use Rattle.tui_json.specs.Refusals.{Gives};

use crate::bad_field::BadField;
use crate::field::Field;
use crate::items::frame::read_style;
use crate::kinds::Symbol;
use serde_json::Value;
use std::alloc::Global;
use tui_cells::Style;
use tui_json::{InputError, given, optional, optional_named};
use tui_lists::{Scrollbar, ScrollbarOrientation, ScrollbarState};

fn with_thumb<'v>(bar: Scrollbar<'v>, symbol: Option<Symbol<'v>>) -> Scrollbar<'v>
    ensures { scrollbar_data result ≡ record (scrollbar_data bar.entry) {
      thumb = unwrap_or (option_map (λ s. s.0.now) symbol.entry) (scrollbar_data bar.entry).thumb;
    } }
{
    match symbol {
        Some(Symbol(symbol)) => bar.thumb_symbol(symbol),
        None => bar,
    }
}

fn with_track<'v>(bar: Scrollbar<'v>, symbol: Option<Option<Symbol<'v>>>) -> Scrollbar<'v>
    ensures { scrollbar_data result ≡ record (scrollbar_data bar.entry) {
      track = unwrap_or (option_map (option_map (λ s. s.0.now)) symbol.entry) (scrollbar_data bar.entry).track;
    } }
{
    match symbol {
        Some(Some(Symbol(symbol))) => bar.track_symbol(Some(symbol)),
        Some(None) => bar.track_symbol(None),
        None => bar,
    }
}

fn with_begin<'v>(bar: Scrollbar<'v>, symbol: Option<Option<Symbol<'v>>>) -> Scrollbar<'v>
    ensures { scrollbar_data result ≡ record (scrollbar_data bar.entry) {
      begin = unwrap_or (option_map (option_map (λ s. s.0.now)) symbol.entry) (scrollbar_data bar.entry).begin;
    } }
{
    match symbol {
        Some(Some(Symbol(symbol))) => bar.begin_symbol(Some(symbol)),
        Some(None) => bar.begin_symbol(None),
        None => bar,
    }
}

fn with_end<'v>(bar: Scrollbar<'v>, symbol: Option<Option<Symbol<'v>>>) -> Scrollbar<'v>
    ensures { scrollbar_data result ≡ record (scrollbar_data bar.entry) {
      end = unwrap_or (option_map (option_map (λ s. s.0.now)) symbol.entry) (scrollbar_data bar.entry).end;
    } }
{
    match symbol {
        Some(Some(Symbol(symbol))) => bar.end_symbol(Some(symbol)),
        Some(None) => bar.end_symbol(None),
        None => bar,
    }
}

#[tactic(auto, unfolding(crate::specs::Items::ScrollbarFields::scrollbar_with_symbols))]
fn read_symbols<'v>(
    alloc: Global,
    bar: Scrollbar<'v>,
    item: Option<usize>,
    value: &'v Value,
) -> Result<Scrollbar<'v>, InputError<BadField>>
    ensures { Gives scrollbar_data result (scrollbar_with_symbols (scrollbar_data bar.entry) item (view value.now)) }
{
    let thumb: Option<Symbol<'v>> = optional(alloc, item, Field::ThumbSymbol, value)?;
    let track: Option<Option<Symbol<'v>>> = given(alloc, item, Field::TrackSymbol, value)?;
    let begin: Option<Option<Symbol<'v>>> = given(alloc, item, Field::BeginSymbol, value)?;
    let end: Option<Option<Symbol<'v>>> = given(alloc, item, Field::EndSymbol, value)?;
    let bar = with_track(with_thumb(bar, thumb), track);
    Ok(with_end(with_begin(bar, begin), end))
}

/// Returns the scrollbar with these styles, if they are given.
fn styled<'v>(
    bar: Scrollbar<'v>,
    thumb: Option<Style>,
    track: Option<Style>,
    begin: Option<Style>,
    end: Option<Style>,
) -> Scrollbar<'v>
    ensures { scrollbar_data result ≡ record (scrollbar_data bar.entry) {
      thumb_style = unwrap_or thumb (scrollbar_data bar.entry).thumb_style;
      track_style = unwrap_or track (scrollbar_data bar.entry).track_style;
      begin_style = unwrap_or begin (scrollbar_data bar.entry).begin_style;
      end_style = unwrap_or end (scrollbar_data bar.entry).end_style;
    } }
{
    let bar = match thumb {
        Some(style) => bar.thumb_style(style),
        None => bar,
    };
    let bar = match track {
        Some(style) => bar.track_style(style),
        None => bar,
    };
    let bar = match begin {
        Some(style) => bar.begin_style(style),
        None => bar,
    };
    match end {
        Some(style) => bar.end_style(style),
        None => bar,
    }
}

#[tactic(auto, unfolding(crate::specs::Items::ScrollbarFields::styled_scrollbar))]
fn read_styles<'v>(
    alloc: Global,
    bar: Scrollbar<'v>,
    item: Option<usize>,
    value: &'v Value,
) -> Result<Scrollbar<'v>, InputError<BadField>>
    ensures { Gives scrollbar_data result (styled_scrollbar (scrollbar_data bar.entry) item (view value.now)) }
{
    let thumb: Option<Style> = optional(alloc, item, Field::ThumbStyle, value)?;
    let track: Option<Style> = optional(alloc, item, Field::TrackStyle, value)?;
    let begin: Option<Style> = optional(alloc, item, Field::BeginStyle, value)?;
    let end: Option<Style> = optional(alloc, item, Field::EndStyle, value)?;
    Ok(styled(bar, thumb, track, begin, end))
}

#[tactic(auto, unfolding(crate::specs::Items::ScrollbarFields::scrollbar_state_of))]
fn read_state(
    alloc: Global,
    item: Option<usize>,
    value: &Value,
) -> Result<ScrollbarState, InputError<BadField>>
    ensures { Gives (λ s. s) result (scrollbar_state_of item (view value.now)) }
{
    let content: Option<u64> = optional(alloc, item, Field::ContentLength, value)?;
    let position: Option<u64> = optional(alloc, item, Field::Position, value)?;
    let viewport: Option<u64> = optional(alloc, item, Field::ViewportContentLength, value)?;
    Ok(
        ScrollbarState::new(content.unwrap_or(0) as usize)
            .position(position.unwrap_or(0) as usize)
            .viewport_content_length(viewport.unwrap_or(0) as usize),
    )
}

/// Reads a scrollbar and its state.
#[tactic(auto, unfolding(crate::specs::Items::ScrollbarFields::shown_scrollbar))]
pub(crate) fn read_scrollbar<'v>(
    alloc: Global,
    item: Option<usize>,
    value: &'v Value,
) -> Result<(Scrollbar<'v>, ScrollbarState), InputError<BadField>>
    ensures { Gives (λ p. (scrollbar_data p.0, p.1)) result (shown_scrollbar item (view value.now)) }
{
    let style = read_style(alloc, item, Field::Style, value)?;
    let orientation: Option<ScrollbarOrientation> = optional_named(
        alloc,
        item,
        Field::Orientation,
        value,
    )?;
    let bar = Scrollbar::new(orientation.unwrap_or(ScrollbarOrientation::VerticalRight)).style(
        style,
    );
    let bar = read_symbols(alloc, bar, item, value)?;
    let bar = read_styles(alloc, bar, item, value)?;
    Ok((bar, read_state(alloc, item, value)?))
}
