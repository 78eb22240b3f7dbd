//! The field of `logo`.

ghost use Rattle.serde_json.specs.View.{view};
ghost use Rattle.tui_schema.specs.Items.Logo.{logo_of};
ghost use Rattle.tui_json.specs.Refusals.{Gives};

use crate::bad_field::BadField;
use crate::field::Field;
use serde_json::Value;
use std::alloc::Global;
use tui_json::{InputError, optional_named};
use tui_para::{RatatuiLogo, Size};

#[tactic(auto, unfolding(crate::specs::Items::Logo::logo_of))]
pub(crate) fn read_logo(
    alloc: Global,
    item: Option<usize>,
    value: &Value,
) -> Result<RatatuiLogo, InputError<BadField>>
    ensures { Gives (λ l. l.size) result (logo_of item (view value.now)) }
{
    let size: Option<Size> = optional_named(alloc, item, Field::Size, value)?;
    Ok(RatatuiLogo::new(size.unwrap_or(Size::Tiny)))
}
