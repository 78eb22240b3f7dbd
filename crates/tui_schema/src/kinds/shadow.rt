//! Shadows: an object with `effect` and optionally `symbol`, `style` and `offset`.

ghost use Rattle.std.specs.Prelude.{◌≡◌, IfOk, option_map};
ghost use Rattle.serde_json.specs.View.{view};
ghost use Rattle.tui_frames.specs.Shadow.{shadow_data, shadow_of as new_shadow};
ghost use Rattle.tui_json.specs.Faults.{fault_data};
ghost use Rattle.tui_json.specs.Kinds.{Reads};
ghost use Rattle.tui_schema.specs.Faults.{shadow_symbol_fault};
ghost use Rattle.tui_schema.specs.Kinds.Shadow.{effect_of, shadow_of};

use crate::field::Field;
use crate::kinds::member::{member, member_fault, optional_member, optional_member_fault};
use crate::kinds::style::{style_member, style_member_fault};
use crate::kinds::symbol::Symbol;
use serde_json::Value;
use std::alloc::Global;
use tui_cells::{Mem, Offset};
use tui_frames::Shadow;
use tui_json::{Explains, Fault, Kind, KindError, Wanted};

/// Reads a shadow's effect. The other settings of the shadow are the defaults.
#[tactic(auto, unfolding(crate::specs::Kinds::Shadow::effect_of))]
fn read_effect<'v>(alloc: Global, value: &'v Value) -> Result<Shadow<'v>, KindError>
    ensures { Reads shadow_data result (option_map new_shadow (effect_of (view value.now))) }
{
    let name: &'v str = member(alloc, value, "effect")?;
    match name {
        "symbol" => {
            let Symbol(symbol) = member(alloc, value, "symbol")?;
            Ok(Shadow::symbol(symbol))
        }
        "overlay" => Ok(Shadow::overlay()),
        "dimmed" => Ok(Shadow::dimmed()),
        "block" => Ok(Shadow::block()),
        "light_shade" => Ok(Shadow::light_shade()),
        "medium_shade" => Ok(Shadow::medium_shade()),
        "dark_shade" => Ok(Shadow::dark_shade()),
        _ => Err(KindError::WrongKind),
    }
}

impl<'v> Kind<'v, Field> for Shadow<'v> {
    ghost use Rattle.tui_frames.specs.Shadow.{ShadowData, shadow_data};

    ghost AsData = { ShadowData };

    ghost as_data = { shadow_data };

    ghost kind = { shadow_of };

    #[tactic(auto, unfolding(crate::specs::Kinds::Shadow::shadow_of))]
    fn read(alloc: Global, value: &'v Value) -> Result<Shadow<'v>, KindError> {
        let shadow = read_effect(alloc, value)?;
        let style = style_member(alloc, value, "style")?;
        let offset: Option<(i32, i32)> = optional_member(alloc, value, "offset")?;
        let (x, y) = offset.unwrap_or((1, 1));
        Ok(shadow.style(style).offset(Offset { x, y }))
    }
}

impl<'v> Explains<'v, Field> for Shadow<'v> {
    ghost use Rattle.tui_schema.specs.Faults.{a_shadow, shadow_parts};

    ghost wanted = { a_shadow };

    ghost part_fault = { shadow_parts };

    fn wanted() -> Wanted<'v> {
        Wanted::Words("an object with `effect`")
    }

    #[tactic(auto, unfolding(crate::specs::Faults::shadow_parts))]
    fn part_fault(alloc: Global, value: &'v Value) -> Mem<Option<Fault<'v>>> {
        if !value.is_object() {
            return Ok(None);
        }
        let effect = member_fault::<EffectName<'v>>(alloc, value, "effect")?;
        let symbol = symbol_fault(alloc, value)?;
        let style = style_member_fault(alloc, value)?;
        let offset = optional_member_fault::<(i32, i32)>(alloc, value, "offset")?;
        Ok(effect.or(symbol).or(style).or(offset))
    }
}

/// Returns the fault of the symbol, which a shadow with the effect `symbol` has.
fn symbol_fault<'v>(alloc: Global, value: &'v Value) -> Mem<Option<Fault<'v>>>
    ensures { IfOk result (λ found. option_map fault_data found ≡ shadow_symbol_fault (view value.now)) }
{
    let Some(effect) = value.get("effect") else {
        return Ok(None);
    };
    match effect.as_str() {
        Some("symbol") => member_fault::<Symbol<'v>>(alloc, value, "symbol"),
        _ => Ok(None),
    }
}

/// The name of an effect.
#[derive(Drop)]
struct EffectName<'v>(&'v str);

impl<'v> Kind<'v, Field> for EffectName<'v> {
    ghost use Rattle.std.specs.Prelude.{ℕ, List};
    ghost use Rattle.tui_schema.specs.Kinds.Shadow.{effect_named};

    ghost AsData = { List ℕ };

    ghost as_data = { λ effect. effect.0.now };

    ghost kind = { effect_named };

    #[tactic(auto, unfolding(crate::specs::Kinds::Shadow::effect_named))]
    fn read(_alloc: Global, value: &'v Value) -> Result<EffectName<'v>, KindError> {
        let name = value.as_str().ok_or(KindError::WrongKind)?;
        match name {
            "symbol"
            | "overlay"
            | "dimmed"
            | "block"
            | "light_shade"
            | "medium_shade"
            | "dark_shade" => { Ok(EffectName(name)) }
            _ => Err(KindError::WrongKind),
        }
    }
}

impl<'v> Explains<'v, Field> for EffectName<'v> {
    ghost use Rattle.tui_json.specs.Faults.{no_parts};
    ghost use Rattle.tui_schema.specs.Faults.{an_effect};

    ghost wanted = { an_effect };

    ghost part_fault = { no_parts };

    fn wanted() -> Wanted<'v> {
        Wanted::Words(
            "`overlay`, `dimmed`, `block`, `light_shade`, `medium_shade`, `dark_shade` or `symbol`",
        )
    }

    fn part_fault(_alloc: Global, _value: &'v Value) -> Mem<Option<Fault<'v>>> {
        Ok(None)
    }
}
