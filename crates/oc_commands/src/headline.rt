//! The properties of every world of a schedule, by the laws of the model.
ghost use Rattle.oc_model.specs.Lawful.{IsHeader};
ghost use Rattle.oc_schedule.specs.Script.{Script};
ghost use Rattle.oc_commands.specs.Headline.{HeadlineHolds};

use oc_laws_tree::{
    able_worlds_heal, every_count_is_informed, every_line_is_explained, heal_goes_step_by_step,
    ready_worlds_settle, settle_takes_few_acts, settled_trees_are_listed_exactly,
    unable_worlds_refuse_heal, unready_worlds_refuse_settle,
};
use oc_laws_world::{content_stays_true, parent_links_form_no_cycle, ranks_hold, tests_decide};

/// The headline holds of every schedule, whatever its events.
pub fn headline_holds()
    ensures { (s : Script) → IsHeader s.header → HeadlineHolds s }
{
    content_stays_true();
    parent_links_form_no_cycle();
    ranks_hold();
    every_line_is_explained();
    every_count_is_informed();
    settled_trees_are_listed_exactly();
    tests_decide();
    unready_worlds_refuse_settle();
    ready_worlds_settle();
    settle_takes_few_acts();
    unable_worlds_refuse_heal();
    able_worlds_heal();
    heal_goes_step_by_step();
}
