//! Laws of all drawings.

ghost use Rattle.tui_scene.specs.Laws.{AgreementIsKept, DisjointItemsCommute, DrawingIsUnique, LayersRepeat, StatesAreStable, OutsideIsUnchanged};
ghost use Rattle.tui_scene.specs.Redraw.{DrawnIsFresh, OrderIsIrrelevant, ReplacedIsFresh, StaysFresh};
ghost use Rattle.tui_scene.specs.Shadow.{ClipIsFootprint};

/// Two buffers that agree at a position agree there after the same drawing. Two neighbouring widgets whose footprints
/// share no position of the buffer may be drawn in either order: cells and states are the same. Widgets that are drawn
/// again keep their states and have the same layers. A widget outside the buffer changes nothing. Drawing widgets on a
/// blank buffer has exactly one result: one screen and one list of states.
pub fn drawing_laws()
    ensures agreement { AgreementIsKept }
    ensures order { DisjointItemsCommute }
    ensures again { StatesAreStable }
    ensures layers { LayersRepeat }
    ensures outside { OutsideIsUnchanged }
    ensures one { DrawingIsUnique }
{}

/// A widget without a shadow changes only its clip. Widgets without shadows whose areas share no position may be drawn
/// in any order. One of them may be replaced: reset its area and draw another widget there. The buffer is then the one
/// that all widgets, with their current states, draw on a blank buffer. The same holds after any number of
/// replacements.
pub fn redraw_laws()
    ensures clip { ClipIsFootprint }
    ensures order { OrderIsIrrelevant }
    ensures first { DrawnIsFresh }
    ensures replaced { ReplacedIsFresh }
    ensures stays { StaysFresh }
{}
