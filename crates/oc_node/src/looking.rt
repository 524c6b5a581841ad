ghost use Rattle.std.specs.Prelude.{◌≡◌, ◌<◌, ◌&&◌, [], ◌∷◌, ◌++◌, OnOk, IfOk};
ghost use Rattle.oc_model.specs.declared.soft.TheConstants.{MAX_MOVES};
ghost use Rattle.oc_model.specs.Checking.{is_joined_to};
ghost use Rattle.oc_model.specs.Choice.{reviewed};
ghost use Rattle.oc_model.specs.Looking.{rate_to_some, looked, candidate, candidates, goes_down, descends, grandparent, view, place_in, wishes, leaves_for, goes_where, weighs, reviews_place, keeps_line, sees};
ghost use Rattle.oc_model.specs.Plan.{begun};
ghost use Rattle.oc_step.specs.StepView.{goes};
ghost use Rattle.oc_step.specs.Since.{AreTold};
ghost use Rattle.oc_state.specs.Modes.{is_reviewing};

use crate::asking::{ask, ask_before, descend, next_try};
use crate::stand::Stand;
use oc_base::{Child, ChildList, Memory, NodeId};
use oc_model::{Body, Candidate, MAX_MOVES, Review};
use oc_place::{View, choose};
use oc_state::Volatile;
use oc_state::modes::{in_tree, is_descending, is_idle, is_reviewing, parent_of, prefers};
use oc_step::Step;

// Rule 12, look: the search for a good place.

/// The rate to a node, in bytes per second; 0 for no node, and for one that was not measured.
fn rate_to_some(step: &Step, peer: Option<NodeId>) -> u64
    requires { AreTold step.now.plan.records }
    ensures { result ≡ rate_to_some step.now.plan.node peer }
{
    match peer {
        Some(peer) => step.rate_to(peer),
        None => 0,
    }
}

/// Rule 12, look: tells a node this one's position.
pub fn looked(step: &mut Step, from: NodeId) -> Result<(), Memory>
    requires { step.old.plan ≡ begun step.old.base }
    ensures { OnOk result (step.new ≡ goes step.old (looked step.old.plan from)) }
{
    let mode = step.position().mode;
    let parent = parent_of(mode);
    let rate = rate_to_some(step, parent);
    let children = ChildList::of(step.children()?);
    step.send(
        from,
        Body::LookIs {
            in_tree: in_tree(mode),
            parent,
            rate,
            children,
        },
    )
}

/// The candidate for a told child, with this node's own reading of that child.
fn candidate(step: &Step, child: &Child) -> Candidate
    requires { AreTold step.now.plan.records }
    ensures { result ≡ candidate step.now.plan.node child.now }
{
    let (mine, hops) = step.reading(child.id);
    Candidate {
        id: child.id,
        mine,
        up: child.rate,
        hops,
    }
}

/// Adds a told child to the candidates, unless it is the node itself.
fn push_candidate(step: &Step, list: &mut Vec<Candidate>, child: &Child) -> Result<(), Memory>
    requires { AreTold step.now.plan.records }
    ensures { OnOk result (list.new.items ≡ list.old.items ++ candidates step.now.plan.node (child.now ∷ [])) }
{
    if child.id != step.id() {
        list.push(candidate(step, child))?;
    }
    Ok(())
}

/// The candidates among the told children: all except for the node itself.
fn candidates(step: &Step, children: &[Child]) -> Result<Vec<Candidate>, Memory>
    requires { AreTold step.now.plan.records }
    ensures { IfOk result (λ made. made.items ≡ candidates step.now.plan.node children.now) }
{
    let mut list = Vec::new(step.alloc());
    for child in children {
        push_candidate(step, &mut list, child)?;
    }
    Ok(list)
}

/// Goes on with the descent at the chosen child, or asks here if no child is as good.
fn go_down(step: &mut Step, child: Option<NodeId>, from: NodeId) -> Result<(), Memory>
    ensures { OnOk result (step.new ≡ goes step.old (goes_down child step.old.plan from)) }
{
    match child {
        Some(child) => descend(step, child),
        None => ask(step, from),
    }
}

/// Rule 12, a descent: takes the position of the node that it asked, and goes on.
fn descends(step: &mut Step, from: NodeId, stand: &Stand) -> Result<(), Memory>
    requires { AreTold step.old.plan.records }
    ensures { OnOk result (step.new ≡ goes step.old (descends step.old.plan from stand.now)) }
{
    if stand.in_tree {
        let candidates = candidates(step, stand.children)?;
        let child = choose(step.rate_to(from), &candidates);
        go_down(step, child, from)
    } else {
        step.search(None);
        next_try(step)
    }
}

/// The grandparent with this node's own rate to it; none if it is the node itself, or a chain member above a
/// parent in the chain, since a chain member with another one below it refuses every other asker.
fn grandparent(step: &Step, parent: NodeId, told: Option<NodeId>) -> Option<(NodeId, u64)>
    requires { AreTold step.now.plan.records }
    ensures { result ≡ grandparent step.now.plan.node parent told }
{
    let chain = step.chain();
    match told {
        Some(node) => {
            if node == step.id() || (parent.0 <= chain && node.0 <= chain) {
                None
            } else {
                Some((node, step.rate_to(node)))
            }
        }
        None => None,
    }
}

/// The result of a review of the place beneath the parent.
fn review(step: &Step, parent: NodeId, stand: &Stand) -> Result<Review, Memory>
    requires { AreTold step.now.plan.records }
    ensures { IfOk result (λ made. made ≡ reviewed (view step.now.plan.node parent stand.now)) }
{
    let siblings = candidates(step, stand.children)?;
    Ok(oc_place::review(&View {
        direct: step.rate_to(parent),
        up: stand.rate,
        grand: grandparent(step, parent, stand.parent),
        siblings: &siblings,
    }))
}

/// The place that a review speaks for, if it is another one than the present place.
fn place_in(review: Review) -> Option<NodeId>
    ensures { result ≡ place_in review }
{
    match review {
        Review::Stay => None,
        Review::Up(node) | Review::Beneath(node) => Some(node),
    }
}

/// Sets the wish, and the number of reviews that spoke for it.
fn set_wish(step: &mut Step, wish: Option<NodeId>, waits: u64)
    ensures { step.new ≡ goes step.old (wishes step.old.plan wish waits) }
{
    let volatile = step.volatile();
    step.set_volatile(Volatile {
        wish,
        waits,
        ..volatile
    });
}

/// Leaves the parent, and asks for another place.
fn leave_for(step: &mut Step, parent: NodeId, place: NodeId) -> Result<(), Memory>
    requires { step.old.plan.node.soft.moves < MAX_MOVES }
    ensures { OnOk result (step.new ≡ goes step.old (leaves_for step.old.plan parent place)) }
{
    let volatile = step.volatile();
    let moves = volatile.moves + 1;
    step.set_volatile(Volatile {
        left: Some(parent),
        moves,
        ..volatile
    });
    ask_before(step, place)
}

/// Counts a review for a place, or asks for the place after enough of them.
fn go_where(step: &mut Step, place: Option<NodeId>, parent: NodeId) -> Result<(), Memory>
    requires { step.old.plan.node.soft.moves < MAX_MOVES }
    ensures { OnOk result (step.new ≡ goes step.old (goes_where place step.old.plan parent)) }
{
    let Some(node) = place else {
        return Ok(());
    };
    let volatile = step.volatile();
    if volatile.waits < u64::from(volatile.patience) + 2 {
        set_wish(step, place, volatile.waits + 1);
        Ok(())
    } else {
        leave_for(step, parent, node)
    }
}

/// Rule 12, a review speaks for this place: measures of one line differ from time to time, so a review for another
/// place than the wish only makes the wish doubtful; a node that has moved eight times stays.
fn weigh(step: &mut Step, parent: NodeId, place: Option<NodeId>) -> Result<(), Memory>
    ensures { OnOk result (step.new ≡ goes step.old (weighs step.old.plan parent place)) }
{
    let volatile = step.volatile();
    if MAX_MOVES <= volatile.moves {
        set_wish(step, None, 0);
        Ok(())
    } else if place != volatile.wish && 0 < volatile.waits {
        set_wish(step, volatile.wish, volatile.waits - 1);
        Ok(())
    } else {
        set_wish(step, place, volatile.waits);
        go_where(step, place, parent)
    }
}

/// Rule 12, a review: takes the position of the parent, and weighs the place that it finds.
fn review_place(step: &mut Step, from: NodeId, stand: &Stand) -> Result<(), Memory>
    requires { AreTold step.old.plan.records }
    ensures { OnOk result (step.new ≡ goes step.old (reviews_place step.old.plan from stand.now)) }
{
    let review = review(step, from, stand)?;
    step.search(None);
    weigh(step, from, place_in(review))
}

/// Rule 12, the line of the chain: a chain member asks the nearest earlier member that is in the tree.
fn keep_line(step: &mut Step, from: NodeId, stand: &Stand) -> Result<(), Memory>
    ensures { OnOk result (step.new ≡ goes step.old (keeps_line step.old.plan from stand.now)) }
{
    if step.is_member()
        && prefers(step.position().mode, from)
        && from.0 < step.id().0
        && stand.in_tree
    {
        ask_before(step, from)
    } else {
        step.ignore()
    }
}

/// Whether a position is the one that a review waits for: that of the parent.
fn is_review(step: &Step, from: NodeId) -> bool
    ensures { result ≡ is_joined_to step.now.plan.node.kept.mode from && is_reviewing step.now.plan.node.soft.search }
{
    step.position().mode.is_joined_to(from) && is_reviewing(step.volatile().search)
}

/// Rule 12, look, at the asker: takes the position of a node.
#[tactic(auto, using(crate::proofs::ByMode::sees_is))]
pub fn sees(step: &mut Step, from: NodeId, stand: &Stand) -> Result<(), Memory>
    requires { AreTold step.old.plan.records }
    ensures { OnOk result (step.new ≡ goes step.old (sees step.old.plan from stand.now)) }
{
    if is_idle(step.position().mode) && is_descending(&step.volatile().search, from) {
        descends(step, from, stand)
    } else if is_review(step, from) {
        review_place(step, from, stand)
    } else {
        keep_line(step, from, stand)
    }
}
