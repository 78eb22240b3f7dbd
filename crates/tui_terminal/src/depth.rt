//! The colour depth of a terminal, from the environment.

ghost use Rattle.std.specs.Prelude.{◌↔◌, IsTrue};
ghost use Rattle.tui_terminal.specs.Depth.{IsDepth, IsDumb, IsPlain, IsTrueColor};

use tui_terminal_model::Depth;

/// Returns the colour depth by the environment variables `NO_COLOR`, `COLORTERM` and `TERM`. Pass an empty
/// string for a variable that is not set. The first rule that applies decides:
///
/// `None` if `NO_COLOR` is not empty, or `TERM` is empty or `dumb`; `True` if `COLORTERM` is `truecolor`
/// or `24bit`; `Palette` if `TERM` contains `256color`; else `Sixteen`. This follows no-color.org and
/// what terminals set.
#[tactic(auto, using(std::proofs::lemmas::Str::Pattern::contains_text))]
pub fn depth_of(no_color: &str, colorterm: &str, term: &str) -> Depth
    ensures { IsDepth no_color.now colorterm.now term.now result }
{
    if is_plain(no_color, term) {
        Depth::None
    } else if is_true_color(colorterm) {
        Depth::True
    } else if term.contains("256color") {
        Depth::Palette
    } else {
        Depth::Sixteen
    }
}

fn is_plain(no_color: &str, term: &str) -> bool
    ensures { IsTrue result ↔ IsPlain no_color.now term.now }
{
    !no_color.is_empty() || is_dumb(term)
}

fn is_dumb(term: &str) -> bool
    ensures { IsTrue result ↔ IsDumb term.now }
{
    term.is_empty() || term == "dumb"
}

fn is_true_color(colorterm: &str) -> bool
    ensures { IsTrue result ↔ IsTrueColor colorterm.now }
{
    colorterm == "truecolor" || colorterm == "24bit"
}
