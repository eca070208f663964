// Numbers for generated tests: the same sequence at every run.
#![tactic(auto)]

ghost use Rattle.std.specs.Prelude.{◌≡◌, ◌<◌, max, eqb};
ghost use Rattle.generator.specs.Draws.{after, drawn};

// A linear congruential generator.
#[derive(Drop)]
pub struct Generator {
    state: u64,
}

impl Generator {
    // A generator whose sequence the seed decides.
    pub fn new(seed: u64) -> Generator
        ensures { result.state ≡ seed }
    {
        Generator { state: seed }
    }

    // A number below `n`, or 0 where `n` is 0.
    pub fn below(&mut self, n: u32) -> u32
        ensures answer { result ≡ drawn (after self.old.state) n }
        ensures range { result < max n 1 }
        ensures state { self.new.state ≡ after self.old.state }
    {
        self.state = self
            .state
            .wrapping_mul(6_364_136_223_846_793_005)
            .wrapping_add(1_442_695_040_888_963_407);
        (self.state >> 32) as u32 % n.max(1)
    }

    // Whether the one case of `n` came.
    pub fn one_in(&mut self, n: u32) -> bool
        ensures answer { result ≡ eqb (drawn (after self.old.state) n) 0 }
        ensures state { self.new.state ≡ after self.old.state }
    {
        self.below(n) == 0
    }
}
