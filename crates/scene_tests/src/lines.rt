//! Both composers by their calls; what a Paragraph shows of their lines is in scene_rows.

use tui_cells::Mem;
use tui_para::{LineComposer, LineTruncator, TextLines, WordWrapper};
use tui_text::{Alignment, Text};

/// Whether the next line has this many graphemes.
fn gives<'a, C: LineComposer<'a>>(composer: &mut C, count: usize) -> Mem<bool>
    requires { C.can_yield composer.old }
{
    match composer.next_line()? {
        None => Ok(false),
        Some(line) => Ok(line.graphemes.len() == count),
    }
}

#[test]
fn text_is_wrapped_at_spaces(rt: HostRuntime) -> Mem<()> {
    let text = Text::raw(rt.alloc(), "ab cd")?;
    let lines = TextLines::new(&text, Alignment::Left);
    let mut wrapper = WordWrapper::new(rt.alloc(), lines, 3, true);
    assert!(&rt; gives(&mut wrapper, 2)?);
    Ok(())
}

#[test]
fn text_is_cut_at_the_width(rt: HostRuntime) -> Mem<()> {
    let text = Text::raw(rt.alloc(), "ab cd")?;
    let lines = TextLines::new(&text, Alignment::Left);
    let mut truncator = LineTruncator::new(rt.alloc(), lines, 3);
    assert!(&rt; gives(&mut truncator, 3)?);
    Ok(())
}
