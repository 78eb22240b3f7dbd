//! How a form is drawn.

ghost use Rattle.std.specs.Prelude.{◌≡◌, IfOk, OnOk, Some, true};
ghost use Rattle.tui_cells.specs.Buffer.{IsFilled};
ghost use Rattle.tui_cells.specs.Cell.{blank};
ghost use Rattle.tui_cells.specs.Layers.{Painted};
ghost use Rattle.tui_cells.specs.Rect.{intersection_of};
ghost use Rattle.tui_form_lib.specs.Drawing.{
  FormDraws,
  ShowsForm,
  cursor_over,
  field_drawn,
  form_list,
  has_room,
  inside,
  layers_over,
  list_state,
  text_input,
  titled_block,
  typed_layers,
  value_cursor,
  value_drawn,
  value_row,
};
ghost use Rattle.tui_form_lib.specs.Form.{form_data};
ghost use Rattle.tui_form_lib.specs.Steps.{changed_at};
ghost use Rattle.tui_form_lib.specs.Value.{value_data};
ghost use Rattle.tui_frames.specs.Block.{block_data};
ghost use Rattle.tui_input.specs.Input.{input_data};
ghost use Rattle.tui_lists.specs.List.{list_after, list_data};
ghost use Rattle.tui_lists.specs.ListStrokes.{list_layers};

use crate::form::Form;
use crate::items::field_items;
use crate::value::Value;
use std::alloc::Global;
use tui_app::draw_too_small;
use tui_cells::{Buffer, Mem, Position, Rect, StatefulWidget};
use tui_frames::Block;
use tui_input::Input;
use tui_lists::{List, ListState};
use tui_text::Line;

/// The least columns and rows of a screen that has room for a form.
const LEAST_WIDTH: u16 = 12;

const LEAST_HEIGHT: u16 = 4;

impl Form {
    /// Draws into a blank buffer, and returns where the cursor of a focused text is shown. The fields are drawn one
    /// below the other in borders with the title, each with its value below its label. A screen without room for that
    /// shows `too small`.
    pub(crate) fn draw_form(&mut self, alloc: Global, buf: &mut Buffer) -> Mem<Option<Position>>
        requires { IsFilled buf.old.area blank buf.old }
        ensures draws { IfOk result (λ place. FormDraws (form_data self.old) buf.new place (form_data self.new)) }
        ensures area { OnOk result (buf.new.area ≡ buf.old.area) }
    {
        if has_room(buf.area()) {
            return self.draw_in_room(alloc, buf);
        }
        draw_too_small(buf)?;
        Ok(None)
    }

    fn draw_in_room(&mut self, alloc: Global, buf: &mut Buffer) -> Mem<Option<Position>>
        requires room { has_room buf.old.area ≡ true }
        requires filled { IsFilled buf.old.area blank buf.old }
        ensures shows { IfOk result (λ place. ShowsForm (form_data self.old) buf.new place (form_data self.new)) }
        ensures area { OnOk result (buf.new.area ≡ buf.old.area) }
    {
        // This call gives the proofs the shape of the buffer's rows.
        let _height = buf.height();
        let mut state = self.list_state();
        let inside = self.draw_list(alloc, &mut state, buf)?;
        self.offset = state.offset();
        let row = value_row(inside, self.offset, self.focus);
        let place = self.draw_over(alloc, row, buf)?;
        Ok(place)
    }

    /// Returns the state of a list that selects the focused field.
    fn list_state(&self) -> ListState
        ensures { result ≡ list_state (form_data self.now) }
    {
        ListState::default()
            .with_offset(self.offset)
            .with_selected(Some(self.focus))
    }

    /// Draws the list of the fields over a buffer, and returns the area inside its borders.
    fn draw_list(&self, alloc: Global, state: &mut ListState, buf: &mut Buffer) -> Mem<Rect>
        ensures cells { let area = buf.old.area in
            OnOk result (Painted (list_layers (form_list (form_data self.now)) state.old (intersection_of area area)) buf.old buf.new) }
        ensures state { let area = buf.old.area in let f = form_data self.now in
            OnOk result (state.new ≡ list_after (form_list f) (inside f (intersection_of area area)) state.old) }
        ensures inside { IfOk result (λ area. area ≡ inside (form_data self.now) buf.old.area) }
    {
        let area = buf.area();
        let block = titled_block(alloc, self.title.as_str())?;
        let inside = block.inner(area);
        let list = self.list(alloc, block)?;
        StatefulWidget::render(&list, alloc, area, buf, state)?;
        Ok(inside)
    }

    /// Returns the list of the fields in a block.
    fn list<'f>(&'f self, alloc: Global, block: Block<'f>) -> Mem<List<'f>>
        ensures { IfOk result (λ list. list_data list ≡ record (form_list (form_data self.now)) { block = Some (block_data block.entry) }) }
    {
        let items = field_items(alloc, &self.fields, self.reported, self.focus)?;
        let symbol = Line::raw(alloc, "> ")?;
        Ok(
            List::new(alloc, items)?
                .block(block)
                .highlight_symbol(symbol),
        )
    }

    /// Draws a focused text over its row, and returns where its cursor is shown.
    fn draw_over(&mut self, alloc: Global, row: Rect, buf: &mut Buffer) -> Mem<Option<Position>>
        ensures cells { let f = form_data self.old in
            OnOk result (Painted (layers_over (intersection_of row buf.old.area) f.fields f.focus) buf.old buf.new) }
        ensures form { let f = form_data self.old in OnOk result (form_data self.new
            ≡ record f { fields = changed_at (field_drawn (intersection_of row buf.old.area)) f.focus f.fields }) }
        ensures cursor { let f = form_data self.old in let fields = changed_at (field_drawn (intersection_of row buf.old.area)) f.focus f.fields in
            IfOk result (λ place. place ≡ cursor_over row fields f.focus) }
    {
        if self.focus >= self.fields.len() {
            return Ok(None);
        }
        let place = self.fields[self.focus].value.draw(alloc, row, buf)?;
        Ok(place)
    }
}

impl Value {
    /// Draws a text as an input over its row, and returns where its cursor is shown. Other values have been drawn by
    /// the list.
    fn draw(&mut self, alloc: Global, row: Rect, buf: &mut Buffer) -> Mem<Option<Position>>
        ensures cells { OnOk result (Painted (typed_layers (intersection_of row buf.old.area) (value_data self.old)) buf.old buf.new) }
        ensures value { OnOk result (value_data self.new ≡ value_drawn (intersection_of row buf.old.area) (value_data self.old)) }
        ensures cursor { IfOk result (λ place. place ≡ value_cursor row (value_data self.new)) }
    {
        match self {
            Value::Text { input, is_masked } => {
                let widget = text_input(*is_masked);
                widget.render(alloc, row, buf, input)?;
                Ok(widget.cursor(row, input))
            }
            _ => Ok(None),
        }
    }
}

/// Returns the input of a text, masked by stars or not.
fn text_input(is_masked: bool) -> Input<'static>
    ensures { input_data result ≡ text_input is_masked }
{
    if is_masked {
        Input::new().mask("*")
    } else {
        Input::new()
    }
}

fn has_room(area: Rect) -> bool
    ensures { result ≡ has_room area }
{
    LEAST_WIDTH <= area.width && LEAST_HEIGHT <= area.height
}

/// Returns the row of the focused field's value in the area of a list that begins with field `offset`. It is below the
/// label, beside the highlight symbol and indented by two columns.
fn value_row(inside: Rect, offset: usize, focus: usize) -> Rect
    ensures { result ≡ value_row inside offset focus }
{
    let below = focus
        .saturating_sub(offset)
        .saturating_mul(2)
        .saturating_add(1);
    let row = below.min(usize::from(inside.height)) as u16;
    inside.rows_from(row, 1).columns_from(4, inside.width)
}

/// Returns a block with borders on all sides and a title.
fn titled_block<'t>(alloc: Global, title: &'t str) -> Mem<Block<'t>>
    ensures { IfOk result (λ block. block_data block ≡ titled_block title.now) }
{
    let mut block = Block::bordered(alloc);
    block.title(Line::raw(alloc, title)?)?;
    Ok(block)
}
