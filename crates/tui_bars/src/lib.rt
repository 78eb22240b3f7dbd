//! Bars in integer arithmetic: gauges that are filled to a share, bar charts, and sparklines.
#![tactic(auto)]

mod areas;
pub mod bar;
pub mod bar_chart;
pub mod bar_group;
pub mod error;
pub mod gauge;
mod label;
pub mod laws;
mod levels;
pub mod line_gauge;
mod percent;
mod plain;
mod plan;
pub mod render_direction;
mod share;
mod shown_bar;
mod shown_group;
pub mod sparkline;
pub mod sparkline_bar;
mod styled_text;

pub use bar::Bar;
pub use bar_chart::BarChart;
pub use bar_group::BarGroup;
pub use error::GaugeError;
pub use gauge::Gauge;
pub use laws::tick_laws;
pub use line_gauge::LineGauge;
pub use render_direction::RenderDirection;
pub use sparkline::Sparkline;
pub use sparkline_bar::SparklineBar;
