// Piles: layers, none or more, over fixed priority.
ghost use Rattle.std.specs.Prelude.{◌≡◌, ℕ, List, [], ◌∷◌};
ghost use Rattle.schedule.specs.Layers.{PassesHanded, TellsHanded, handed};
ghost use Rattle.std.proofs.Common.{rules};
ghost use Rattle.schedule.specs.Lemmas.Layered.{passes_handed_more, stays_some, tells_handed_more};

use crate::change::{Change, change_all};
use crate::fixed_priority::FixedPriority;
use crate::layer::Layer;
use crate::timing_test::TimingTest;

/// Fixed priority beneath layers, none or more. It passes exactly the well-shaped lists whose times, as handed down through the
/// layers, fixed priority passes, and tells the response times of those.
pub trait Pile: TimingTest {
    /// What the layers do to a time, the outermost first.
    ghost layers: { Self → List (ℕ → ℕ) };

    /// Puts the times that reach fixed priority in the place of those given.
    fn hand_down(&self, times: &mut [u32])
        ensures value { times.new ≡ handed (layers self.now) times.old }
        ensures passes { PassesHanded (layers self.now) (Self.Test.passes self.now) }
        ensures tells { TellsHanded (layers self.now) (Self.TimingTest.told self.now) };

    ghost passes_handed: { (pile : Self) → PassesHanded (layers pile) (Self.Test.passes pile) };

    ghost tells_handed: { (pile : Self) → TellsHanded (layers pile) (Self.TimingTest.told pile) };
}

impl Pile for FixedPriority {
    ghost layers = { λ _. [] };

    ghost passes_handed = { Prim.search rules };

    ghost tells_handed = { Prim.search rules };

    fn hand_down(&self, times: &mut [u32]) {}
}

impl<C: Change, P: Pile> Pile for Layer<C, P> {
    ghost layers = { λ layer. C.Change.changed layer.change ∷ P.Pile.layers layer.below };

    ghost passes_handed = { λ pile.
        let change = C.Change.changed pile.change in
        let met = C.Change in
        passes_handed_more change (stays_some change (met.keeps_order pile.change) (met.never_shortens pile.change)) (P.Pile.layers pile.below)
        (P.Test.passes pile.below) (P.Pile.passes_handed pile.below) };

    ghost tells_handed = { λ pile.
        let change = C.Change.changed pile.change in
        let met = C.Change in
        tells_handed_more change (stays_some change (met.keeps_order pile.change) (met.never_shortens pile.change)) (P.Pile.layers pile.below)
        (P.TimingTest.told pile.below) (P.Pile.tells_handed pile.below) };

    fn hand_down(&self, times: &mut [u32]) {
        change_all(&self.change, times);
        self.below.hand_down(times);
    }
}
