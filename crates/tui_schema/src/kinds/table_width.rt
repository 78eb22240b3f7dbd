//! Column widths of a table: a percentage is at most 100.

ghost use Rattle.std.specs.Prelude.{◌≡◌};
ghost use Rattle.tui_table.specs.Widths.{is_above_100};
ghost use Rattle.tui_schema.specs.Kinds.TableWidth.{table_width_of};

use crate::field::Field;
use serde_json::Value;
use std::alloc::Global;
use tui_cells::Mem;
use tui_json::{
    Explains, Fault, Kind, KindError, Wanted, Within, constraint_of, given_member_fault,
};
use tui_layout::Constraint;

/// A column width of a table.
#[derive(Drop)]
pub(crate) struct TableWidth(pub Constraint);

fn is_above_100(width: Constraint) -> bool
    ensures { result ≡ is_above_100 width }
{
    match width {
        Constraint::Percentage(percent) => percent > 100,
        _ => false,
    }
}

impl<'v> Kind<'v, Field> for TableWidth {
    ghost use Rattle.tui_layout.specs.declared.constraint.Constraint.{Constraint};

    ghost AsData = { Constraint };

    ghost as_data = { λ width. width.0 };

    ghost kind = { table_width_of };

    #[tactic(auto, unfolding(crate::specs::Kinds::TableWidth::table_width_of))]
    fn read(_alloc: Global, value: &'v Value) -> Result<TableWidth, KindError> {
        match constraint_of(value) {
            Some(width) if !is_above_100(width) => Ok(TableWidth(width)),
            _ => Err(KindError::WrongKind),
        }
    }
}

impl<'v> Explains<'v, Field> for TableWidth {
    ghost use Rattle.tui_json.specs.Constraint.{a_constraint};
    ghost use Rattle.tui_schema.specs.Faults.{table_width_parts};

    ghost wanted = { a_constraint };

    ghost part_fault = { table_width_parts };

    fn wanted() -> Wanted<'v> {
        <Constraint as Explains<'v, Field>>::wanted()
    }

    #[tactic(auto, unfolding(crate::specs::Faults::table_width_parts))]
    fn part_fault(alloc: Global, value: &'v Value) -> Mem<Option<Fault<'v>>> {
        let width = <Constraint as Explains<'v, Field>>::part_fault(alloc, value)?;
        let percentage = given_member_fault::<Within<0, 100>, Field>(alloc, value, "percentage")?;
        Ok(width.or(percentage))
    }
}
