//! Laws of all drawn scenes, and of all outcomes.

ghost use Rattle.tui_scene.specs.Laws.{DrawingIsUnique};
ghost use Rattle.tui_show_run.specs.ByOutcome.{OutcomesAgree};
ghost use Rattle.tui_show_run.specs.Laws.{DemoIsFewest, DemoIsUnique, OutputIsUnique};

use tui_para::text_wraps_exactly_once;
use tui_print::print_laws;

/// Drawing the widgets of a scene gives exactly one screen and one list of states. A scene has exactly one output. So
/// has a demonstration, and its words have the fewest lines.
pub fn scene_laws()
    ensures drawing { DrawingIsUnique }
    ensures output { OutputIsUnique }
    ensures demo { DemoIsUnique }
    ensures fewest { DemoIsFewest }
{
    text_wraps_exactly_once();
    print_laws();
}

/// The outcome that the contract of `show` states by the rules of the program is the one that
/// `tui_show_run/specs/ByOutcome.antt` states for each outcome.
#[tactic(auto, using(crate::proofs::ByOutcome::outcomes_agree))]
pub fn outcome_laws()
    ensures { OutcomesAgree }
{}
