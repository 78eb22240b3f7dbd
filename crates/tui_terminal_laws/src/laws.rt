//! Laws. Each is a function with an empty body.

ghost use Rattle.tui_terminal_model.specs.Session.{RestoresMainScreen, Settles};
ghost use Rattle.tui_terminal_laws.specs.Laws.{
  ChangeIsShown,
  DepthsRest,
  DrawingWidthsAreKnown,
  FewParameters,
  FramesFollow,
  FullIsShown,
  NamesStay,
  NearestInPalette,
  NearestName,
  SendsNothing,
  TrueChangesNothing,
};
ghost use Rattle.tui_terminal_laws.specs.Plain.{StyledRowsAreOne, StyledRowsArePlain, StyledRowsAreSafe};
ghost use Rattle.tui_terminal_laws.specs.Reading.{HasOneReading, KnownWidthsHaveOneReading};

/// The commands of a full screen show it on any terminal. The commands of a change show the new screen if the
/// terminal shows the old one, so frames can follow one another. If nothing has changed, nothing is sent, for
/// an output that keeps the cursor and doesn't use synchronized output.
pub fn screen_laws()
    ensures full { FullIsShown }
    ensures change { ChangeIsShown }
    ensures follow { FramesFollow }
    ensures nothing { SendsNothing }
{}

/// Between entering and leaving the alternate screen the main screen is kept. On the main screen, `settle`
/// after frames leaves what they have drawn, and the terminal with the default pen and modes.
pub fn session_law()
    ensures between { RestoresMainScreen }
    ensures settles { Settles }
{}

/// Every symbol that widgets draw with has a known width.
pub fn symbol_law()
    ensures drawing { DrawingWidthsAreKnown }
{}

/// A depth leaves the colours that it yields unchanged. Named colours are unchanged at each depth but `None`.
/// None of the sixteen colours is nearer than the one that is chosen, and none of the palette's cube and
/// grays. A sequence that sets a pen has at most 16 parameters.
pub fn colour_laws()
    ensures rest { DepthsRest }
    ensures whole { TrueChangesNothing }
    ensures names { NamesStay }
    ensures nearest_name { NearestName }
    ensures nearest { NearestInPalette }
    ensures few { FewParameters }
{}

/// Rows one below the other are their symbols, with a newline after each row, and the sequences that set the
/// pen. On a terminal with the default pen each symbol is drawn by the pen of its own cell. At each newline
/// the pen is the default one. A screen has only one such encoding, and no text of a cell begins a command.
pub fn styled_law()
    ensures plain { StyledRowsArePlain }
    ensures one { StyledRowsAreOne }
    ensures safe { StyledRowsAreSafe }
{}

/// Only one list of safe commands has these bytes, except for where one of two adjacent prints ends and the
/// next begins. If every symbol has a known width, there is only one list.
pub fn reading_law()
    ensures one { HasOneReading }
    ensures known_width { KnownWidthsHaveOneReading }
{}
