//! Styles: objects of colours and modifiers.

ghost use Rattle.std.specs.Prelude.{◌≡◌, IfOk, option_map};
ghost use Rattle.serde_json.specs.View.{view};
ghost use Rattle.tui_json.specs.Faults.{fault_data};
ghost use Rattle.tui_json.specs.Kinds.{Reads};
ghost use Rattle.tui_schema.specs.Faults.{style_member_fault};
ghost use Rattle.tui_schema.specs.Kinds.Style.{modifiers_or_none, style_member, styled, style_of};

use crate::field::Field;
use crate::kinds::member::{optional_member, optional_member_fault};
use serde_json::Value;
use std::alloc::Global;
use tui_cells::{Color, Mem, Modifier, Style};
use tui_json::{Explains, Fault, Kind, KindError, Wanted};

/// Returns a style of these colours, in which modifiers are added first, and then others removed.
#[tactic(auto, using(crate::proofs::Styling::both_none, crate::proofs::Styling::none_other))]
fn styled(
    fg: Option<Color>,
    bg: Option<Color>,
    added: Option<Modifier>,
    removed: Option<Modifier>,
) -> Style
    ensures { result ≡ styled fg bg (modifiers_or_none added) (modifiers_or_none removed) }
{
    let colors = Style {
        fg,
        bg,
        ..Style::new()
    };
    let added = added.unwrap_or(Modifier::empty());
    let removed = removed.unwrap_or(Modifier::empty());
    colors.add_modifier(added).remove_modifier(removed)
}

impl<'v> Kind<'v, Field> for Style {
    ghost use Rattle.tui_cells.specs.declared.style.Style.{Style};

    ghost AsData = { Style };

    ghost as_data = { λ style. style };

    ghost kind = { style_of };

    #[tactic(auto, unfolding(crate::specs::Kinds::Style::style_of))]
    fn read(alloc: Global, value: &'v Value) -> Result<Style, KindError> {
        if !value.is_object() {
            return Err(KindError::WrongKind);
        }
        let fg = optional_member(alloc, value, "fg")?;
        let bg = optional_member(alloc, value, "bg")?;
        let add = optional_member(alloc, value, "add")?;
        let sub = optional_member(alloc, value, "sub")?;
        Ok(styled(fg, bg, add, sub))
    }
}

impl<'v> Explains<'v, Field> for Style {
    ghost use Rattle.tui_schema.specs.Faults.{a_style, style_parts};

    ghost wanted = { a_style };

    ghost part_fault = { style_parts };

    fn wanted() -> Wanted<'v> {
        Wanted::Words("an object with `fg`, `bg`, `add` or `sub`")
    }

    #[tactic(auto, unfolding(crate::specs::Faults::style_parts))]
    fn part_fault(alloc: Global, value: &'v Value) -> Mem<Option<Fault<'v>>> {
        let fg = optional_member_fault::<Color>(alloc, value, "fg")?;
        let bg = optional_member_fault::<Color>(alloc, value, "bg")?;
        let add = optional_member_fault::<Modifier>(alloc, value, "add")?;
        let sub = optional_member_fault::<Modifier>(alloc, value, "sub")?;
        Ok(fg.or(bg).or(add).or(sub))
    }
}

/// Reads the member of this name, which may be absent or null, as a style. Without it, the style is empty.
#[tactic(auto, unfolding(crate::specs::Kinds::Style::style_member))]
pub(crate) fn style_member(alloc: Global, value: &Value, name: &str) -> Result<Style, KindError>
    ensures { Reads (λ style. style) result (style_member name.now (view value.now)) }
{
    let style: Option<Style> = optional_member(alloc, value, name)?;
    Ok(style.unwrap_or(Style::new()))
}

/// Returns the fault of the member `style`, which may be absent or null.
pub(crate) fn style_member_fault<'v>(alloc: Global, value: &'v Value) -> Mem<Option<Fault<'v>>>
    ensures { IfOk result (λ found. option_map fault_data found ≡ style_member_fault (view value.now)) }
{
    optional_member_fault::<Style>(alloc, value, "style")
}
