// The best pair so far. All pairs, the first extreme pair and the sweeps that skip are definitions (specs/) with their
// laws (proofs/).
#![tactic(auto)]

ghost use Rattle.std.specs.Prelude.{◌≡◌, Float, Bool, true, None};
ghost use Rattle.ieee754.specs.Root.{root_of};
ghost use Rattle.primitives.specs.declared.Witness.{Witness};
ghost use Rattle.primitives.specs.declared.UnrootedWitness.{UnrootedWitness};
ghost use Rattle.primitives.specs.Unrooted.{rooted_of};
ghost use Rattle.primitives.specs.Witnesses.{better_of};
ghost use Rattle.extremes.specs.Extreme.{at_most, at_least};
ghost use Rattle.extremes.specs.Sweeps.{shorter, longer, taking};
ghost use Rattle.extremes.specs.ClosestSweep.{no_closer};
ghost use Rattle.extremes.specs.Farthest.{no_longer};
ghost use Rattle.extremes.specs.BestSoFar.{BestFits, Sound, found_of, at_zero, at_nan};
ghost use Rattle.extremes.specs.RootSense.{RootSense, shortest_roots, longest_roots};

use primitives::{Point, UnrootedWitness, Witness};
use std::marker::{Model, PhantomData};

// Which of two distances is the better one.
pub trait Sense {
    // A new distance beats the best's.
    ghost beats: { Float → Float → Bool };

    // A sum of squares stands so to the best's that its root does not beat the best's root.
    ghost order: { Float → Float → Bool };

    fn beats(best: f64, new: f64) -> bool
        ensures { result ≡ beats best new };

    // The better of two witnesses: the new one only if its distance beats the best's.
    fn better(best: Witness, new: Witness) -> Witness
        ensures { result ≡ better_of beats best new };

    fn in_order(sum: f64, best: f64) -> bool
        ensures { result ≡ order sum best };

    ghost laws: { RootSense order beats };
}

// The strictly shorter distance is better.
pub struct Closest;

impl Sense for Closest {
    ghost beats = { shorter };

    ghost order = { at_least };

    ghost laws = { shortest_roots };

    fn beats(best: f64, new: f64) -> bool {
        new < best
    }

    #[tactic(auto, unfolding(primitives::specs::Witnesses::smaller_of))]
    fn better(best: Witness, new: Witness) -> Witness {
        best.min(new)
    }

    fn in_order(sum: f64, best: f64) -> bool {
        sum >= best
    }
}

// The strictly longer distance is better.
pub struct Farthest;

impl Sense for Farthest {
    ghost beats = { longer };

    ghost order = { at_most };

    ghost laws = { longest_roots };

    fn beats(best: f64, new: f64) -> bool {
        new > best
    }

    fn better(best: Witness, new: Witness) -> Witness {
        if new.d > best.d { new } else { best }
    }

    fn in_order(sum: f64, best: f64) -> bool {
        sum <= best
    }
}

// 1 - 2^-49
const ONE_MINUS_SLACK: f64 = 0.99999999999999822364316059975;

// 1 + 2^-49. The test by it stays apart from the one by the slack above: as one, a sense would have to name the slack,
// the order of the squares and the scope's definition, for one caller each.
const ONE_PLUS_SLACK: f64 = 1.0000000000000017763568394002504646778106689453125;

// The best witness so far, and the sum of squares that its distance is the root of, which is NaN while there is none.
// A distance below 0 stands for none: an `Option` is copied in pieces, its flag apart from the witness, and small calls
// are slower. `BestSoFar` keeps the two so; what is asked here needs the witness alone.
#[derive(Clone, Copy)]
pub struct Best {
    pub sum: f64,
    pub witness: Witness,
}

impl Best {
    // The witness, if there is one.
    pub fn found(&self) -> Option<Witness>
        ensures { result ≡ found_of self.now.witness }
    {
        let w = self.witness;
        if w.d < 0.0 { None } else { Some(w) }
    }

    // Whether there is one of distance 0.
    #[tactic(auto, unfolding(crate::specs::BestSoFar::at_zero))]
    pub fn is_zero(&self) -> bool
        ensures { result ≡ at_zero (found_of self.now.witness) }
    {
        self.witness.d == 0.0
    }

    // Whether there is one whose distance is NaN.
    #[tactic(auto, unfolding(crate::specs::BestSoFar::at_nan))]
    pub fn is_nan(&self) -> bool
        ensures { result ≡ at_nan (found_of self.now.witness) }
    {
        self.witness.d.is_nan()
    }

    // Whether a pair whose boxes are that far apart, squared, is no closer than the best.
    #[tactic(auto, unfolding(crate::specs::ClosestSweep::no_closer))]
    pub fn no_closer(&self, gap: f64) -> bool
        ensures { result ≡ no_closer (found_of self.now.witness) gap }
    {
        let d = self.witness.d;
        if d < 0.0 {
            return false;
        }
        gap * ONE_MINUS_SLACK >= d * d
    }

    // Whether a pair that is at most that far apart, squared, is no farther apart than the best.
    pub fn no_farther(&self, greatest: f64) -> bool
        ensures { result ≡ no_longer (found_of self.now.witness) greatest }
    {
        let d = self.witness.d;
        if d < 0.0 {
            return false;
        }
        greatest * ONE_PLUS_SLACK <= d * d
    }
}

// The best so far by a sense, whose sum is kept as `Best` says: contracts see the witness that it has, if any.
#[derive(Drop)]
pub struct BestSoFar<S> {
    best: Best,
    sense: PhantomData<S>,
}

impl<S> Model for BestSoFar<S> {
    ghost use Rattle.std.specs.declared.option.Option.{Option};
    ghost use Rattle.primitives.specs.declared.Witness.{Witness};
    ghost use Rattle.extremes.specs.BestSoFar.{found_of, Sound};

    ghost Value = { Option Witness };

    ghost view = { λ b. found_of b.best.witness };

    ghost invariant = { λ b. Sound b.best.sum (found_of b.best.witness) };
}

impl<S: Sense> BestSoFar<S> {
    // No witness yet.
    pub fn none() -> Self
        ensures { result ≡ None }
    {
        let origin = Point {
            x: 0.0,
            y: 0.0,
            z: 0.0,
        };
        BestSoFar {
            best: Best {
                sum: f64::NAN,
                witness: Witness {
                    d: -1.0,
                    a: origin,
                    b: origin,
                },
            },
            sense: PhantomData,
        }
    }

    // The better of the best and the witness of s: the first witness is taken, a later one only if its distance beats
    // the best's.
    // Of equal distances the first witness stays, with the later sum: another witness of that sum is then excluded, and
    // its root not taken.
    pub fn offer(&mut self, s: UnrootedWitness)
        ensures value { self.new ≡ taking S.beats self.old (rooted_of s) }
        ensures fits { BestFits self.old }
    {
        let sum = s.sum;
        if S::in_order(sum, self.best.sum) {
            return;
        }
        let w = s.rooted();
        let first = self.best.witness;
        if first.d < 0.0 {
            self.best.sum = sum;
            self.best.witness = w;
            return;
        }
        if S::beats(first.d, w.d) || w.d == first.d {
            self.best.sum = sum;
        }
        self.best.witness = S::better(first, w);
    }

    // Whether no witness whose distance is the root of that sum changes the best. No root is taken.
    pub fn excludes(&self, sum: f64) -> bool
        ensures unchanged { result ≡ true → (w : Witness) → w.d ≡ root_of sum → taking S.beats self.now w ≡ self.now }
        ensures rooted { result ≡ true → (s : UnrootedWitness) → s.sum ≡ sum → self.now ≡ taking S.beats self.now (rooted_of s) }
        ensures fits { BestFits self.now }
    {
        S::in_order(sum, self.best.sum)
    }

    // The best as it is kept.
    pub fn best(&self) -> &Best
        ensures value { found_of result.now.witness ≡ self.now }
        ensures sound { Sound result.now.sum self.now }
    {
        &self.best
    }

    // What the sweep found.
    pub fn witness(self) -> Option<Witness>
        ensures { result ≡ self }
    {
        self.best.found()
    }

    // Whether there is a best of distance 0.
    #[tactic(auto, using(crate::proofs::KeptWitness::sound_fits))]
    pub fn is_zero(&self) -> bool
        ensures value { result ≡ at_zero self.now }
        ensures fits { BestFits self.now }
    {
        self.best.is_zero()
    }

    // Whether there is a best whose distance is NaN.
    #[tactic(auto, using(crate::proofs::KeptWitness::sound_fits))]
    pub fn is_nan(&self) -> bool
        ensures value { result ≡ at_nan self.now }
        ensures fits { BestFits self.now }
    {
        self.best.is_nan()
    }
}

impl BestSoFar<Closest> {
    // Whether a pair whose boxes are that far apart, squared, is no closer than the best.
    #[tactic(auto, using(crate::proofs::KeptWitness::sound_fits))]
    pub fn no_closer(&self, gap: f64) -> bool
        ensures value { result ≡ no_closer self.now gap }
        ensures fits { BestFits self.now }
    {
        self.best.no_closer(gap)
    }
}

impl BestSoFar<Farthest> {
    // Whether a pair that is at most that far apart, squared, is no farther apart than the best.
    #[tactic(auto, using(crate::proofs::KeptWitness::sound_fits))]
    pub fn no_farther(&self, greatest: f64) -> bool
        ensures value { result ≡ no_longer self.now greatest }
        ensures fits { BestFits self.now }
    {
        self.best.no_farther(greatest)
    }
}
