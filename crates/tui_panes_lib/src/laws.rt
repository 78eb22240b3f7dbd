//! Laws of all panes.

ghost use Rattle.tui_panes_lib.specs.Laws.{PanesAreDisjoint, PanesStayFresh, RetriedIsFresh};

/// The rectangles of the leaves are inside the area, and no two share a position.
pub fn tree_laws()
    ensures apart { PanesAreDisjoint }
{}

/// Holds if no widget has a shadow. All panes are drawn on a blank buffer, and then leaves are replaced any number of
/// times. The buffer is then the one that the panes, with their current widgets and states, draw on a blank buffer. If
/// replacements of one leaf fail with `NoMemory`, the same holds as soon as that leaf is replaced successfully, by any
/// widget.
pub fn panes_laws()
    ensures fresh { PanesStayFresh }
    ensures again { RetriedIsFresh }
{}
