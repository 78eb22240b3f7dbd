//! Horizontal lines.
#![tactic(auto)]

ghost use Rattle.ruler.specs.Ruler.{ruler_drawing};

use std::alloc::Global;
use tui_cells::{Buffer, Mem, Rect, Style, Widget};
#[cfg(test)]
use tui_cells::{Modifier, Position};
#[cfg(test)]
use tui_text::row_text;

/// Draws a symbol in each cell of the first row of its area.
#[derive(Clone, Copy)]
pub struct Ruler<'a> {
    pub symbol: &'a str,
    pub style: Style,
}

impl<'a> Widget for Ruler<'a> {
    ghost drawing = { λ ruler. ruler_drawing ruler.symbol.now ruler.style };

    fn render(&self, alloc: Global, area: Rect, buf: &mut Buffer) -> Mem<()> {
        let row = area.intersection(buf.area()).rows_from(0, 1);
        buf.fill(alloc, row, self.symbol, self.style)
    }
}

#[test]
fn a_ruler_is_the_first_row(rt: HostRuntime) -> Result<(), std::test::Fail> {
    let alloc = rt.alloc();
    let area = Rect::new(0, 0, 4, 2);
    let mut buffer = Buffer::empty(alloc, area)?;
    let style = Style::new().add_modifier(Modifier::BOLD);
    Ruler { symbol: "─", style }.render(alloc, area, &mut buffer)?;
    let mut rows = String::new(alloc);
    for row in 0..buffer.height() {
        rows.push_str(row_text(alloc, &buffer, row)?.as_str())?;
        rows.push('\n')?;
    }
    assert_eq!(rt; rows.as_str(), "────\n    \n");
    let corner = buffer.cell(Position::new(0, 0));
    assert!(rt; corner.is_some_and(|cell| cell.modifier() == Modifier::BOLD));
    Ok(())
}
