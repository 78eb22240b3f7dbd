//! Bars of a chart, their groups, the bars of a sparkline, and the symbols of bars.

ghost use Rattle.std.specs.Prelude.{◌≡◌, option_map};
ghost use Rattle.std.specs.Option.{option_or};
ghost use Rattle.tui_bars.specs.BarChart.{bar_data};
ghost use Rattle.tui_cells.specs.Symbols.{bar_data as symbols_of, nine_levels, three_levels};
ghost use Rattle.tui_schema.specs.Kinds.Bars.{bar_of, bar_set_of, group_of, sparkline_bar_of};
ghost use Rattle.tui_text.specs.Line.{line_data};

use crate::field::Field;
use crate::kinds::member::{
    elements_fault, member, member_fault, optional_member, optional_member_fault, read,
};
use crate::kinds::style::style_member_fault;
use serde_json::Value;
use std::alloc::Global;
use tui_bars::{Bar, BarGroup, SparklineBar};
use tui_cells::{Mem, Style, bar};
use tui_json::{Explains, Fault, Kind, KindError, Wanted};
use tui_text::Line;

fn with_label<'v>(bar: Bar<'v>, label: Option<Line<'v>>) -> Bar<'v>
    ensures { bar_data result ≡ record (bar_data bar.entry) { label = option_or (option_map line_data label.entry) (bar_data bar.entry).label } }
{
    match label {
        Some(label) => bar.label(label),
        None => bar,
    }
}

fn with_text<'v>(bar: Bar<'v>, text: Option<&'v str>) -> Bar<'v>
    ensures { bar_data result ≡ record (bar_data bar.entry) { text = option_or (option_map (λ t. t.now) text.entry) (bar_data bar.entry).text } }
{
    match text {
        Some(text) => bar.text_value(text),
        None => bar,
    }
}

impl<'v> Kind<'v, Field> for Bar<'v> {
    ghost use Rattle.tui_bars.specs.BarChart.{BarData};

    ghost AsData = { BarData };

    ghost as_data = { bar_data };

    ghost kind = { bar_of };

    #[tactic(auto, unfolding(crate::specs::Kinds::Bars::bar_of))]
    fn read(alloc: Global, value: &'v Value) -> Result<Bar<'v>, KindError> {
        match value {
            Value::Object(_) => {
                let number: u64 = member(alloc, value, "value")?;
                let label: Option<Line<'v>> = optional_member(alloc, value, "label")?;
                let style: Option<Style> = optional_member(alloc, value, "style")?;
                let value_style: Option<Style> = optional_member(alloc, value, "value_style")?;
                let text: Option<&'v str> = optional_member(alloc, value, "text_value")?;
                let bar = with_text(with_label(Bar::new(number), label), text);
                Ok(
                    bar.style(style.unwrap_or(Style::new()))
                        .value_style(value_style.unwrap_or(Style::new())),
                )
            }
            _ => Ok(Bar::new(read(alloc, value)?)),
        }
    }
}

impl<'v> Explains<'v, Field> for Bar<'v> {
    ghost use Rattle.tui_schema.specs.Faults.{a_bar, bar_parts};

    ghost wanted = { a_bar };

    ghost part_fault = { bar_parts };

    fn wanted() -> Wanted<'v> {
        Wanted::Words("a whole number from 0, below 2^64, or an object with `value`")
    }

    #[tactic(auto, unfolding(crate::specs::Faults::bar_parts))]
    fn part_fault(alloc: Global, value: &'v Value) -> Mem<Option<Fault<'v>>> {
        if !value.is_object() {
            return Ok(None);
        }
        let number = member_fault::<u64>(alloc, value, "value")?;
        let label = optional_member_fault::<Line<'v>>(alloc, value, "label")?;
        let style = style_member_fault(alloc, value)?;
        let value_style = optional_member_fault::<Style>(alloc, value, "value_style")?;
        let text = optional_member_fault::<&'v str>(alloc, value, "text_value")?;
        Ok(number.or(label).or(style).or(value_style).or(text))
    }
}

impl<'v> Kind<'v, Field> for BarGroup<'v> {
    ghost use Rattle.tui_bars.specs.BarChart.{GroupData, group_data};

    ghost AsData = { GroupData };

    ghost as_data = { group_data };

    ghost kind = { group_of };

    #[tactic(auto, unfolding(crate::specs::Kinds::Bars::group_of))]
    fn read(alloc: Global, value: &'v Value) -> Result<BarGroup<'v>, KindError> {
        match value {
            Value::Array(_) => Ok(BarGroup::new(read(alloc, value)?)),
            _ => {
                let bars: Vec<Bar<'v>> = member(alloc, value, "bars")?;
                let label: Option<Line<'v>> = optional_member(alloc, value, "label")?;
                Ok(match label {
                    Some(label) => BarGroup::with_label(label, bars),
                    None => BarGroup::new(bars),
                })
            }
        }
    }
}

impl<'v> Explains<'v, Field> for BarGroup<'v> {
    ghost use Rattle.tui_schema.specs.Faults.{a_group, group_parts};

    ghost wanted = { a_group };

    ghost part_fault = { group_parts };

    fn wanted() -> Wanted<'v> {
        Wanted::Words("an array of bars, or an object with `bars`")
    }

    #[tactic(auto, unfolding(crate::specs::Faults::group_parts))]
    fn part_fault(alloc: Global, value: &'v Value) -> Mem<Option<Fault<'v>>> {
        match value {
            Value::Array(_) => elements_fault::<Bar<'v>>(alloc, value),
            Value::Object(_) => {
                let bars = member_fault::<Vec<Bar<'v>>>(alloc, value, "bars")?;
                let label = optional_member_fault::<Line<'v>>(alloc, value, "label")?;
                Ok(bars.or(label))
            }
            _ => Ok(None),
        }
    }
}

impl<'v> Kind<'v, Field> for SparklineBar {
    ghost use Rattle.tui_bars.specs.Sparkline.{SparklineBarData, sparkline_bar_data};

    ghost AsData = { SparklineBarData };

    ghost as_data = { sparkline_bar_data };

    ghost kind = { sparkline_bar_of };

    #[inline]
    #[tactic(auto, unfolding(crate::specs::Kinds::Bars::sparkline_bar_of))]
    fn read(alloc: Global, value: &'v Value) -> Result<SparklineBar, KindError> {
        match value {
            Value::Null => Ok(SparklineBar::default()),
            Value::Object(_) => {
                let number: Option<u64> = optional_member(alloc, value, "value")?;
                let style: Option<Style> = optional_member(alloc, value, "style")?;
                Ok(SparklineBar::from(number).style(style))
            }
            _ => {
                let number: u64 = read(alloc, value)?;
                Ok(SparklineBar::from(number))
            }
        }
    }
}

impl<'v> Explains<'v, Field> for SparklineBar {
    ghost use Rattle.tui_schema.specs.Faults.{a_sparkline_bar, sparkline_bar_parts};

    ghost wanted = { a_sparkline_bar };

    ghost part_fault = { sparkline_bar_parts };

    fn wanted() -> Wanted<'v> {
        Wanted::Words(
            "a whole number from 0, below 2^64, null, or an object with `value` or `style`",
        )
    }

    #[tactic(auto, unfolding(crate::specs::Faults::sparkline_bar_parts))]
    fn part_fault(alloc: Global, value: &'v Value) -> Mem<Option<Fault<'v>>> {
        if !value.is_object() {
            return Ok(None);
        }
        let number = optional_member_fault::<u64>(alloc, value, "value")?;
        Ok(number.or(style_member_fault(alloc, value)?))
    }
}

fn nine_levels<'a>() -> bar::Set<'a>
    ensures { symbols_of result ≡ nine_levels }
{
    bar::NINE_LEVELS
}

fn three_levels<'a>() -> bar::Set<'a>
    ensures { symbols_of result ≡ three_levels }
{
    bar::THREE_LEVELS
}

impl<'v> Kind<'v, Field> for bar::Set<'v> {
    ghost use Rattle.tui_cells.specs.Symbols.{BarData as BarSymbols};

    ghost AsData = { BarSymbols };

    ghost as_data = { symbols_of };

    ghost kind = { bar_set_of };

    #[tactic(auto, unfolding(crate::specs::Kinds::Bars::bar_set_of))]
    fn read(_alloc: Global, value: &'v Value) -> Result<bar::Set<'v>, KindError> {
        match value.as_str() {
            Some("NineLevels") => Ok(nine_levels()),
            Some("ThreeLevels") => Ok(three_levels()),
            _ => Err(KindError::WrongKind),
        }
    }
}

impl<'v> Explains<'v, Field> for bar::Set<'v> {
    ghost use Rattle.tui_json.specs.Faults.{no_parts};
    ghost use Rattle.tui_schema.specs.Faults.{a_bar_set};

    ghost wanted = { a_bar_set };

    ghost part_fault = { no_parts };

    fn wanted() -> Wanted<'v> {
        Wanted::Words("`NineLevels` or `ThreeLevels`")
    }

    fn part_fault(_alloc: Global, _value: &'v Value) -> Mem<Option<Fault<'v>>> {
        Ok(None)
    }
}
