ghost use Rattle.std.specs.Prelude.{◌<◌, ◌≤◌, ◌^◌};

/// Every so many numbers: from `least` on, each `step` further, up to `most`.
#[derive(Clone, Copy, Debug)]
pub struct Numbers {
    /// The first of them.
    pub least: u64,
    /// None is above this.
    pub most: u64,
    /// From one to the next: at least 1.
    pub step: u64,
    ghost some: { least ≤ most },
    ghost steps: { 1 ≤ step },
    ghost fits: { most < 2 ^ 64 },
}
