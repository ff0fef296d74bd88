// Equations with the frames of their operators.
ghost use Rattle.std.specs.Prelude.{◌≡◌, length, slice_get, All, MatchOption, None, Some, IfSome, IsTrue};
ghost use Rattle.sg_dependencies.specs.Frames.{frame_of, spot_of};
ghost use Rattle.sg_dependencies.specs.Rounds.{IsNamed, IsNumberedBelow};
ghost use Rattle.sg_reasons.specs.Reasons.{IsByEquation};
ghost use Rattle.sg_reasons.specs.Scenes.{IsScene, IsNumber, StandAt};

use sg_dependencies::{Frame, Spot, operator};
use sg_kinds::spec::{Rule, Rules};

/// The equations, and for each operator its vertices.
#[derive(Clone, Copy)]
pub struct Scene<'a> {
    pub rules: &'a Rules,
    pub frames: &'a [Frame],
}

/// Two vertices of an operator.
#[derive(Clone, Copy)]
pub struct Edge {
    pub op: usize,
    pub from: usize,
    pub to: usize,
}

/// The element at a place, if there is one.
pub fn item_at<T>(items: &[T], place: usize) -> Option<&T>
    ensures { MatchOption result (slice_get items.now place ≡ None) (λ x. slice_get items.now place ≡ Some x.now) }
{
    items.get(place)
}

// The vertices of an operator that is there.
fn frame_at<'a>(scene: &Scene<'a>, op: usize) -> Option<&'a Frame>
    requires { IsScene scene.now.rules.now scene.now.frames.now }
    ensures { IfSome result (λ f. f.now ≡ frame_of scene.now.rules.now op) }
{
    match item_at(scene.frames, op) {
        Some(frame) => Some(frame),
        None => None,
    }
}

// An occurrence that is there.
fn spot_in(frame: &Frame, at: u32) -> Option<Spot>
    ensures { IfSome result (λ s. slice_get frame.now.spots at ≡ Some s) }
{
    frame.spots.place(at).copied()
}

/// An occurrence of an operator that is there.
pub fn spot_at(scene: &Scene, op: usize, at: u32) -> Option<Spot>
    requires { IsScene scene.now.rules.now scene.now.frames.now }
    ensures { IfSome result (λ s. s ≡ spot_of scene.now.rules.now op at) }
{
    match frame_at(scene, op) {
        Some(frame) => spot_in(frame, at),
        None => None,
    }
}

// Whether an equation names one vertex and defines the other.
fn joins(frame: &Frame, rule: &Rule, from: usize, to: usize) -> bool
    requires target { IsNumberedBelow frame.now frame.now.count rule.now.target }
    requires args { All (IsNumberedBelow frame.now frame.now.count) rule.now.args }
    ensures { IsTrue result → IsNamed frame.now rule.now (length rule.now.args) from to }
{
    if frame.number(rule.target) != to {
        return false;
    }
    for arg in rule.args.as_slice() {
        if frame.number(*arg) == from {
            return true;
        }
    }
    false
}

// Whether an equation that is there names one vertex of the operator and defines the other.
fn is_rule(scene: &Scene, edge: Edge, rule: &Rule, place: usize) -> bool
    requires scene { IsScene scene.now.rules.now scene.now.frames.now }
    requires rule { slice_get scene.now.rules.now.rules place ≡ Some rule.now }
    requires of { rule.now.op ≡ edge.op }
    ensures { IsTrue result → IsByEquation scene.now.rules.now edge.op edge.from edge.to place }
{
    match frame_at(scene, edge.op) {
        Some(frame) => joins(frame, rule, edge.from, edge.to),
        None => false,
    }
}

/// Whether the equation at a place is of the operator, names the one vertex and defines the other.
pub fn is_equation(scene: &Scene, edge: Edge, place: usize) -> bool
    requires { IsScene scene.now.rules.now scene.now.frames.now }
    ensures { IsTrue result → IsByEquation scene.now.rules.now edge.op edge.from edge.to place }
{
    match item_at(scene.rules.rules.as_slice(), place) {
        Some(rule) => operator(rule) == edge.op && is_rule(scene, edge, rule, place),
        None => false,
    }
}

// Whether a slot of an occurrence has an attribute of this number.
fn is_number(spot: Spot, slot: u32, number: usize) -> bool
    ensures { IsTrue result → IsNumber spot slot number }
{
    (slot as usize) < spot.attrs && spot.first <= number && number - spot.first == slot as usize
}

/// Whether two slots of an occurrence have attributes of these numbers.
pub fn stand_at(spot: Spot, a: u32, b: u32, from: usize, to: usize) -> bool
    ensures { IsTrue result → StandAt spot a b from to }
{
    is_number(spot, a, from) && is_number(spot, b, to)
}
