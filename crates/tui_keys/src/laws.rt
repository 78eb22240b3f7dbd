//! What holds for all bytes. Each law is a function with an empty body.

ghost use Rattle.tui_keys.specs.Laws.{
  AloneIsRead,
  AnswersPassOver,
  EventsAreBounded,
  EventsAreFew,
  MarksHaveBytes,
  NulIsATick,
  OnlyBeginBegins,
  OnlyEndEnds,
  OthersAreRead,
  OutsideIsOutside,
  PasteIsItself,
  PastedIsPasted,
  PiecesAreOne,
  ReadsAreOne,
  SentIsRead,
  TextIsItself,
};

/// Bytes in pieces yield the same events as in one piece. So do two reads, unless the end of the first yields
/// an event. There are at most two events a byte. The byte 0 interrupts nothing. Numbers and letters are
/// within their bounds.
pub fn event_laws()
    ensures pieces { PiecesAreOne }
    ensures reads { ReadsAreOne }
    ensures few { EventsAreFew }
    ensures nul { NulIsATick }
    ensures bounded { EventsAreBounded }
{}

/// Within a paste every event is a character, unknown, or the end. A paste begins at the last byte of ESC [
/// 200 ~, ends at the last byte of ESC [ 201 ~, and does so at no other byte. Both sequences have only this
/// number. Pasted text decodes to its characters.
pub fn paste_laws()
    ensures pasted { PastedIsPasted }
    ensures outside { OutsideIsOutside }
    ensures begins { OnlyBeginBegins }
    ensures ends { OnlyEndEnds }
    ensures bytes { MarksHaveBytes }
    ensures itself { PasteIsItself }
{}

/// The bytes that a terminal sends for events decode to these events. A reply to a query of another program,
/// which begins with ESC and one of ] P X ^ _, yields no event.
pub fn sending_laws()
    ensures text { TextIsItself }
    ensures sent { SentIsRead }
    ensures alone { AloneIsRead }
    ensures answers { AnswersPassOver }
    ensures others { OthersAreRead }
{}
