//! The enums of widgets, by the names of their variants.

ghost use Rattle.tui_json.specs.Named.{reads_named};
ghost use Rattle.tui_schema.specs.Kinds.Names.{alignments, border_types, list_directions, orientations, render_directions, sizes, title_positions};

use crate::field::Field;
use tui_bars::RenderDirection;
use tui_frames::{BorderType, TitlePosition};
use tui_json::Named;
use tui_lists::{ListDirection, ScrollbarOrientation};
use tui_para::Size;
use tui_text::Alignment;

impl Named<Field> for Alignment {
    ghost names = { alignments };

    ghost reads = { reads_named alignments };

    #[tactic(auto, unfolding(tui_json::specs::Named::listed_names))]
    fn listed() -> &'static str {
        "`Left`, `Center` or `Right`"
    }
}

impl Named<Field> for BorderType {
    ghost names = { border_types };

    ghost reads = { reads_named border_types };

    #[tactic(auto, unfolding(tui_json::specs::Named::listed_names))]
    fn listed() -> &'static str {
        "`Plain`, `Rounded`, `Double`, `Thick`, `LightDoubleDashed`, `HeavyDoubleDashed`, \
         `LightTripleDashed`, `HeavyTripleDashed`, `LightQuadrupleDashed`, `HeavyQuadrupleDashed`, \
         `QuadrantInside` or `QuadrantOutside`"
    }
}

impl Named<Field> for TitlePosition {
    ghost names = { title_positions };

    ghost reads = { reads_named title_positions };

    #[tactic(auto, unfolding(tui_json::specs::Named::listed_names))]
    fn listed() -> &'static str {
        "`Top` or `Bottom`"
    }
}

impl Named<Field> for ListDirection {
    ghost names = { list_directions };

    ghost reads = { reads_named list_directions };

    #[tactic(auto, unfolding(tui_json::specs::Named::listed_names))]
    fn listed() -> &'static str {
        "`TopToBottom` or `BottomToTop`"
    }
}

impl Named<Field> for ScrollbarOrientation {
    ghost names = { orientations };

    ghost reads = { reads_named orientations };

    #[tactic(auto, unfolding(tui_json::specs::Named::listed_names))]
    fn listed() -> &'static str {
        "`VerticalRight`, `VerticalLeft`, `HorizontalBottom` or `HorizontalTop`"
    }
}

impl Named<Field> for RenderDirection {
    ghost names = { render_directions };

    ghost reads = { reads_named render_directions };

    #[tactic(auto, unfolding(tui_json::specs::Named::listed_names))]
    fn listed() -> &'static str {
        "`LeftToRight` or `RightToLeft`"
    }
}

impl Named<Field> for Size {
    ghost names = { sizes };

    ghost reads = { reads_named sizes };

    #[tactic(auto, unfolding(tui_json::specs::Named::listed_names))]
    fn listed() -> &'static str {
        "`Tiny` or `Small`"
    }
}
