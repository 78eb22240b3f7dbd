//! Laws of all widgets.

ghost use Rattle.std.specs.Prelude.{◌≡◌, true};
ghost use Rattle.tui_cells.specs.Buffer.{Screen};
ghost use Rattle.tui_cells.specs.Layers.{Painted, SameCells};
ghost use Rattle.tui_cells.specs.Rect.{is_empty};
ghost use Rattle.tui_cells.specs.declared.rect.Rect.{Rect};

use crate::stateful::StatefulWidget;
use crate::widget::Widget;

/// Drawing over an empty clip changes nothing, whatever the widget.
pub fn empty_clip_law<W: Widget>(widget: &W)
    ensures { (clip : Rect) (old new : Screen) → is_empty clip ≡ true → Painted ((W.drawing widget.now).layers clip) old new → SameCells old new }
{}

/// Drawing a stateful widget over an empty clip changes neither cells nor the state, whatever the state.
pub fn empty_clip_state_law<W: StatefulWidget>(widget: &W, state: &W::State)
    ensures cells { (clip : Rect) (old new : Screen) → is_empty clip ≡ true
        → Painted ((W.stateful_drawing widget.now).layers state.now clip) old new → SameCells old new }
    ensures state { (clip : Rect) → is_empty clip ≡ true → (W.stateful_drawing widget.now).after clip state.now ≡ state.now }
{}
