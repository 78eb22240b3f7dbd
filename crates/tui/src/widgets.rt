//! The widgets, their states and their traits, and the dates of a `Monthly`.

pub use jiff::civil::Date;
pub use tui_bars::{
    Bar, BarChart, BarGroup, Gauge, GaugeError, LineGauge, RenderDirection, Sparkline, SparklineBar,
};
pub use tui_calendar::{CalendarEventStore, DateStyler, Monthly};
pub use tui_cells::{StatefulWidget, Widget};
pub use tui_frames::{
    Block, BlockExt, BorderType, Borders, CellEffect, Clear, Dimmed, Fill, Padding, Shadow, Title,
    TitlePosition,
};
pub use tui_layout::HighlightSpacing;
pub use tui_lists::{
    List, ListDirection, ListItem, ListState, ScrollDirection, Scrollbar, ScrollbarOrientation,
    ScrollbarState, Tabs,
};
pub use tui_para::{
    LineComposer, LineTruncator, Paragraph, RatatuiLogo, Size, TextLines, WordWrapper, Wrap,
    WrappedLine,
};
pub use tui_table::{Cell, Row, Table, TableState, WidthsError};
