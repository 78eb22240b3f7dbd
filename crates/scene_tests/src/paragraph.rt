//! Paragraphs by the call that no program makes.

use tui_cells::Mem;
use tui_para::Paragraph;
use tui_text::Text;

#[test]
fn paragraphs_are_copied(rt: HostRuntime) -> Mem<()> {
    let paragraph = Paragraph::new(Text::raw(rt.alloc(), "a")?);
    drop(paragraph.clone()?);
    Ok(())
}
