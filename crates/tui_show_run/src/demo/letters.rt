//! The letters of words and items.

ghost use Rattle.std.specs.Prelude.{◌≡◌, [], ◌∷◌};
ghost use Rattle.tui_show_run.specs.Demo.Text.{letter};

/// Returns the letter of a word or an item as a string: a for the first, and again for the 27th.
pub(crate) fn letter_text(i: u32) -> &'static str
    ensures { result.now ≡ letter i ∷ [] }
{
    match i % 26 {
        0 => "a",
        1 => "b",
        2 => "c",
        3 => "d",
        4 => "e",
        5 => "f",
        6 => "g",
        7 => "h",
        8 => "i",
        9 => "j",
        10 => "k",
        11 => "l",
        12 => "m",
        13 => "n",
        14 => "o",
        15 => "p",
        16 => "q",
        17 => "r",
        18 => "s",
        19 => "t",
        20 => "u",
        21 => "v",
        22 => "w",
        23 => "x",
        24 => "y",
        _ => "z",
    }
}
