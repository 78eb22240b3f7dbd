//! Laws of all pages.

ghost use Rattle.tui_pages_lib.specs.Laws.{NumbersAreColumns, PagesAreFewest, PagesAreUnique};

/// For all heights above 0 and every number of rows above 0, exactly one list of pages is valid. If there are records
/// and none is taller than a page, the number of pages is minimal: no pages that keep records whole, in order and
/// within the rows are fewer. In the number of each page, each byte has one column, so the number ends at the right
/// edge.
pub fn page_laws()
    ensures one { PagesAreUnique }
    ensures fewest { PagesAreFewest }
    ensures number { NumbersAreColumns }
{}
