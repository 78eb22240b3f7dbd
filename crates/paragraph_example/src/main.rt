//! Wraps a text to 16 columns, centred, and prints the rows.
#![tactic(auto)]

use tui::buffer::{Buffer, row_text};
use tui::layout::Rect;
use tui::text::Text;
use tui::widgets::{Paragraph, Widget, Wrap};

fn main(rt: HostRuntime) -> anyhow::Result<()> {
    let alloc = rt.alloc();
    let text = Text::raw(alloc, "The quick brown fox says コンニチハ to the lazy dog.")?;
    let paragraph = Paragraph::new(text)
        .wrap(Wrap {
            trim: true,
            hyphens: false,
        })
        .centered();

    let area = Rect::new(0, 0, 16, 4);
    let mut buffer = Buffer::empty(alloc, area)?;
    paragraph.render(alloc, area, &mut buffer)?;

    for row in 0..buffer.height() {
        println!(rt; "{}", row_text(alloc, &buffer, row)?.as_str())?;
    }
    Ok(())
}
