ghost use Rattle.std.specs.Prelude.{List};
ghost use Rattle.oc_model.specs.declared.event.Event.{Event};
ghost use Rattle.oc_model.specs.Lawful.{IsHeader};
ghost use Rattle.oc_model.specs.NextWorld.{world_after};
ghost use Rattle.oc_model.specs.Node.{Header};
ghost use Rattle.oc_model.specs.World.{new_world};
ghost use Rattle.oc_laws_tree.specs.Healing.{HealHeals, WhereAble, DoesStepOne, DoesStepTwo, DoesStepThree, DoesStepFour, HealTakes};

/// Heal heals an able world: after any events, from any new world within the limits.
///
/// After heal the world is settled, and parents know their children's own numbers. The root is the least chain
/// member that is up.
pub fn able_worlds_heal()
    ensures { (h : Header) (events : List Event) → IsHeader h → HealHeals (world_after (new_world h) events) }
{}

/// The effect of each step of heal in an able world with the leader m, and the number of its acts.
///
/// Step 1: m acts as root, after at most 2m acts. Step 2: a node that is up holds a lease only if the child is
/// up and joined to it at that ask number; at most nine acts for each node that is up. Step 3: each node is in
/// place at its turn, and each that was in place stays there, under its parent; at most 51 acts for each that
/// was not, and at most two asks of each. Step 4 is settle, in a world that is ready then.
pub fn heal_goes_step_by_step()
    ensures one { (h : Header) (events : List Event) → IsHeader h → WhereAble DoesStepOne (world_after (new_world h) events) }
    ensures two { (h : Header) (events : List Event) → IsHeader h → WhereAble DoesStepTwo (world_after (new_world h) events) }
    ensures three { (h : Header) (events : List Event) → IsHeader h → WhereAble DoesStepThree (world_after (new_world h) events) }
    ensures four { (h : Header) (events : List Event) → IsHeader h → WhereAble DoesStepFour (world_after (new_world h) events) }
    ensures number { (h : Header) (events : List Event) → IsHeader h → WhereAble HealTakes (world_after (new_world h) events) }
{}
